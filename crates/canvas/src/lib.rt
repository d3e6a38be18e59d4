// The borders of a table on a canvas (grid_table.rs: format_grid_table): corners, borders along
// lines and at sides, `=` rules and colons. The canvas is working space, never cleared: a border's
// slot holds its byte, the first inner column of each inner line of cell k holds 256 + k, and the
// other slots hold anything.
#![tactic(auto)]

pub mod borders;
pub mod colons;
pub mod corners;
pub mod frames;

ghost use Rattle.std.specs.Prelude.{ℕ, ◌*◌, ◌≤◌, ◌<◌, length, get_or};
ghost use mathlib.Core.List.{Memᴰ};
ghost use Rattle.grid.specs.Values.{Rect};
ghost use Rattle.grid.specs.LayoutCall.{slot_space};
ghost use Rattle.drawing.specs.Plain.{Canvas};
ghost use Rattle.representation.specs.Arrays.{rects_of};
ghost use Rattle.representation.specs.LayoutEntries.{Inside};
ghost use Rattle.canvas.specs.Picture.{Drawable, Pictured};

use crate::borders::draw_borders;
use crate::colons::draw_colons;
use crate::corners::draw_corners;

// The lines that are `=` rules.
#[derive(Clone, Copy)]
pub struct Rules {
    pub head: Option<usize>,
    pub foot: Option<usize>,
    pub last: Option<usize>,
}

// Draws the borders, corners and colons of all cells. `row` is the alignment line, marks[k] is 1
// where column line k has a corner on it, and xs has where the column lines stand.
pub fn draw_canvas(
    rects: &[u8],
    n: usize,
    rules: Rules,
    cols: &[u16],
    columns: usize,
    xs: [usize; 128],
    marks: [u8; 128],
    row: usize,
    canvas: &mut [u16],
)
    requires n_bound { (n ≤ 1024) × (4 * n ≤ length rects.now) × (slot_space ≤ length canvas.old) }
    requires inside { (r : Rect) → Memᴰ r (rects_of n rects.now) → Inside 128 128 r }
    requires row_bound { (row < 128) × (columns < 128) × (2 * columns ≤ length cols.now) }
    requires rising { ((i j : ℕ) → i < j → j ≤ columns → get_or xs i 0 < get_or xs j 0) × (get_or xs columns 0 < 128) }
    ensures { let frames = rects.now in
        let drawn = canvas.new in
        ((v : Canvas) → Drawable v n frames rules cols.now columns xs marks row → Pictured v n frames drawn) }
{
    draw_borders(rects, n, rules, canvas);
    draw_corners(rects, n, canvas);
    draw_colons(cols, columns, xs, marks, row, canvas);
}
