// Where the borders of a table stand (grid_table.rs: format_grid_table, up to `offsets`).
#![tactic(auto)]

pub mod borders;
pub mod cells;
pub mod fit;
pub mod lines;

ghost use Rattle.std.specs.Prelude.{ℕ, ◌≤◌, ◌≡◌, length};
ghost use Rattle.representation.specs.TableIn.{Tabled};
ghost use Rattle.sizes.specs.Measured.{Measured};

use crate::borders::{column_offsets, row_offsets};
use crate::cells::measure_cells;
use crate::lines::trim_lines;

// The column at which each column's left border stands and the line of each row's upper one, then
// the last border's.
#[derive(Clone, Copy)]
pub struct Offsets {
    pub xs: [usize; 128],
    pub ys: [usize; 128],
}

// Where the borders of a checked table stand. On the way each line's start and end and each cell's
// first line, height and width are noted, for the drawing.
pub fn measure_table(
    columns: usize,
    n: usize,
    cols: &[u16],
    sections: &[u8],
    cells: &[u16],
    lengths: &[u16],
    text: &[u8],
    starts: &mut [u16],
    ends: &mut [u16],
    firsts: &mut [u16],
    heights: &mut [u16],
    wides: &mut [u16],
) -> Offsets
    requires by_index { (origin : ℕ) × Tabled origin columns n cols.now sections.now cells.now lengths.now text.now }
    requires in_bounds { (16384 ≤ length starts.old) × (16384 ≤ length ends.old) }
    requires in_bounds_2 { (1024 ≤ length firsts.old) × (1024 ≤ length heights.old) × (1024 ≤ length wides.old) }
    ensures { let measured = Measured columns n cols.now sections.now cells.now lengths.now text.now in
        measured starts.new ends.new firsts.new heights.new wides.new result }
{
    trim_lines(lengths, text, starts, ends);
    measure_cells(cells, n, text, starts, ends, firsts, heights, wides);
    Offsets {
        xs: column_offsets(columns, cols, n, cells, wides),
        ys: row_offsets(sections.len(), n, cells, heights),
    }
}
