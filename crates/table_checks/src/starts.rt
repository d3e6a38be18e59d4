// 8: does a cell start in each row and in each column?
ghost use Rattle.std.specs.Prelude.{ℕ, ◌+◌, ◌*◌, ◌<◌, ◌≡◌, length, get_or};
ghost use Rattle.drawing.specs.GridRules.{all_start};
ghost use Rattle.representation.specs.Edges.{Marks};
ghost use Rattle.table_checks.specs.Entries.{entries};
ghost use Rattle.table_checks.specs.Shapes.{grid_of, IsLaid};

use crate::cover::Levels;
use crate::shape::Shape;

// Marks by level 1 the rows (from 0 on) or columns (from 1 on) in which cells start.
fn starts(cells: &[u16], n: usize, from: usize) -> Levels
    requires { (from < 2) × (length cells.now ≡ 5 * n) × ((k : ℕ) → k < n → get_or cells.now (5 * k + from) 0 < 128) }
    ensures { Marks (entries from 5 n cells.now) result.each }
{
    let mut marks = Levels { each: [0; 128] };
    for k in 0..n {
        marks.each[cells[5 * k + from] as usize] = 1;
    }
    marks
}

pub fn all_start(shape: Shape<'_>) -> bool
    requires { IsLaid shape }
    ensures { result ≡ all_start (grid_of shape.entry) }
{
    let rows = starts(shape.cell_entries, shape.cells, 0);
    let columns = starts(shape.cell_entries, shape.cells, 1);
    rows.all_at(0, shape.sections.len(), 1) && columns.all_at(0, shape.columns, 1)
}
