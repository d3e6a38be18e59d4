// 1 and 2: the limits of a table whose arrays agree with its sizes. The tests are joined by `|`: each
// answer is one equation, where `||` would part it into cases.
ghost use Rattle.std.specs.Prelude.{ℕ, ◌*◌, ◌≡◌, List, length};
ghost use Rattle.grid.specs.Values as grid;
ghost use Rattle.grid.specs.Flat.{columns_of_array};
ghost use Rattle.drawing.specs.Redraw.{table_empty, shape_too_large, lines_too_large, table_too_large};
ghost use Rattle.representation.specs.TableIn.{table_in};
ghost use Rattle.table_checks.specs.Agreement.{Agree};
ghost use Rattle.table_checks.specs.Shapes.{lent_table};

use crate::entries::any_over;
use crate::shape::Shape;
use representation::lent::Table;

const MAX_ORIGIN: usize = 255;

const MAX_COLUMNS: usize = 127;

const MAX_ROWS: usize = 127;

const MAX_CELLS: usize = 1024;

const MAX_WIDTH: u16 = 128;

const MAX_LINES: u16 = 128;

const MAX_TABLE_LINES: usize = 16384;

const MAX_LINE_BYTES: u16 = 512;

const MAX_BYTES: usize = 32768;

// 1, of a table.
pub fn table_empty(shape: Shape<'_>) -> bool
    ensures { let s = shape.entry in
        (t : grid.Table) → length t.columns ≡ s.columns → length t.sections ≡ s.rows → length t.cells ≡ s.cells → result ≡ table_empty t }
{
    (shape.columns == 0) | (shape.rows == 0) | (shape.cells == 0)
}

// 2, of a table's shape.
pub fn shape_too_large(shape: Shape<'_>) -> bool
    requires { length shape.column_entries.now ≡ 2 * shape.columns }
    ensures { let s = shape.entry in
        (t : grid.Table) → t.columns ≡ columns_of_array s.columns s.column_entries.now → length t.sections ≡ s.rows → length t.cells ≡ s.cells
        → result ≡ shape_too_large t }
{
    (MAX_COLUMNS < shape.columns)
        | (MAX_ROWS < shape.rows)
        | (MAX_CELLS < shape.cells)
        | any_over(shape.column_entries, 1, 2, shape.columns, MAX_WIDTH)
}

// 2, of its lines.
pub fn lines_too_large(table: Table<'_>) -> bool
    requires { Agree table.cells table.cell_entries.now table.lengths.now table.text.now }
    ensures { let t = table.entry in
        (columns : ℕ) (cols sections : List ℕ) → result ≡ lines_too_large (table_in columns t.cells cols sections t.cell_entries.now t.lengths.now t.text.now) }
{
    any_over(table.cell_entries, 4, 5, table.cells, MAX_LINES)
        | (MAX_TABLE_LINES < table.lengths.len())
        | any_over(table.lengths, 0, 1, table.lengths.len(), MAX_LINE_BYTES)
        | (MAX_BYTES < table.text.len())
}

// 2, of a table and its origin.
pub fn too_large(origin: usize, table: Table<'_>) -> bool
    requires sized { length table.column_entries.now ≡ 2 * table.columns }
    requires agree { Agree table.cells table.cell_entries.now table.lengths.now table.text.now }
    ensures { result ≡ table_too_large origin (lent_table table.entry) }
{
    let shape = Shape {
        rows: table.sections.len(),
        ..Shape::of(table)
    };
    (MAX_ORIGIN < origin) | shape_too_large(shape) | lines_too_large(table)
}
