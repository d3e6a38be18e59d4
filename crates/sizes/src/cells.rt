// How many lines and columns each cell has.
ghost use Rattle.std.specs.Prelude.{◌+◌, ◌*◌, ◌≤◌, ◌≡◌, length};
ghost use Rattle.seq.specs.Lists.{sum};
ghost use Rattle.grid.specs.Cut.{drop_empty_last};
ghost use Rattle.drawing.specs.Sizes.{widest};
ghost use Rattle.representation.specs.TableIn.{counts_in};
ghost use Rattle.sizes.specs.Lines.{lines_at, Measurable};
ghost use Rattle.sizes.specs.Cells.{Counted};

use crate::lines::line_columns;
use text::Column;

// How many lines, up to the last that is not empty, and the columns of the widest.
#[derive(Clone, Copy)]
pub struct CellSize {
    pub lines: usize,
    pub columns: Column,
}

// Of `count` lines from line `first` on.
fn cell_size(text: &[u8], starts: &[u16], ends: &[u16], first: usize, count: usize) -> CellSize
    requires { (first + count ≤ 16384) × Measurable text.now starts.now ends.now (first + count) }
    ensures { let lines = drop_empty_last (lines_at text.now starts.now ends.now first count) in
        ((result.lines ≡ length lines) × (result.lines ≤ count)) × ((result.columns.0 ≡ widest lines) × (result.columns.0 ≤ 2048)) }
{
    let mut lines = 0;
    let mut columns: usize = 0;
    for i in 0..count {
        let from = starts[first + i] as usize;
        let to = ends[first + i] as usize;
        columns = columns.max(line_columns(&text[from..to]).0);
        if from < to {
            lines = i + 1;
        }
    }
    CellSize {
        lines,
        columns: Column(columns),
    }
}

// For each cell the number of its first line, its number of lines, and the columns of the widest of
// them and one for the space before it.
pub fn measure_cells(
    cells: &[u16],
    n: usize,
    text: &[u8],
    starts: &[u16],
    ends: &[u16],
    firsts: &mut [u16],
    heights: &mut [u16],
    wides: &mut [u16],
)
    requires n_bound { (n ≤ 1024) × (5 * n ≤ length cells.now) × (sum (counts_in n cells.now) ≤ 16384) }
    requires measurable { Measurable text.now starts.now ends.now (sum (counts_in n cells.now)) }
    requires n_in_bounds { (n ≤ length firsts.old) × (n ≤ length heights.old) × (n ≤ length wides.old) }
    ensures { let counted = Counted cells.now text.now starts.now ends.now n in
        counted firsts.new heights.new wides.new }
{
    let mut first = 0;
    for k in 0..n {
        let count = cells[5 * k + 4] as usize;
        let size = cell_size(text, starts, ends, first, count);
        firsts[k] = first as u16;
        heights[k] = size.lines as u16;
        wides[k] = (size.columns.0 + 1) as u16;
        first += count;
    }
}
