// The corners of each cell. A corner may stand on a border of another cell, so they come after the
// borders of all.
ghost use Rattle.std.specs.Prelude.{◌+◌, ◌*◌, ◌≤◌, ◌<◌, length};
ghost use mathlib.Core.List.{Memᴰ};
ghost use Rattle.grid.specs.Values.{Rect as Frame};
ghost use Rattle.grid.specs.LayoutCall.{slot_space};
ghost use Rattle.representation.specs.Arrays.{rects_of};
ghost use Rattle.representation.specs.LayoutEntries.{Inside};
ghost use Rattle.representation.specs.Lent.{rect_of};
ghost use Rattle.canvas.specs.Painting.{Drawn, cornered, all_cornered};

use representation::STRIDE;
use representation::rect::Rect;

const PLUS: u16 = 0x2b;

// The four corners of a cell.
fn put_corners(rect: Rect, canvas: &mut [u16])
    requires room { slot_space ≤ length canvas.old }
    requires inside { Inside 128 128 (rect_of rect) }
    ensures { Drawn (cornered (rect_of rect)) canvas.old canvas.new }
{
    let above = rect.top * STRIDE;
    let below = rect.bottom * STRIDE;
    let left = rect.left.0;
    let right = rect.right.0;
    canvas[above + left] = PLUS;
    canvas[above + right] = PLUS;
    canvas[below + left] = PLUS;
    canvas[below + right] = PLUS;
}

// The corners of all cells.
pub fn draw_corners(rects: &[u8], n: usize, canvas: &mut [u16])
    requires n_bound { (n ≤ 1024) × (4 * n ≤ length rects.now) × (slot_space ≤ length canvas.old) }
    requires inside { (r : Frame) → Memᴰ r (rects_of n rects.now) → Inside 128 128 r }
    ensures { Drawn (all_cornered rects.now n) canvas.old canvas.new }
{
    for k in 0..n {
        put_corners(Rect::at(rects, k), canvas);
    }
}
