// The lines of a drawing, from the canvas and the cells' text.
ghost use Rattle.std.specs.Prelude.{◌+◌, ◌-◌, ◌≤◌, ◌<◌, ◌≡◌, true, ◌∷◌, ◌++◌, length, get_or, replicate};
ghost use Rattle.text.specs.Characters.{space};
ghost use Rattle.text.specs.Columns.{columns_from};
ghost use Rattle.text.specs.Utf8.{char_indices, well_formed};
ghost use Rattle.drawing.specs.Plain.{Canvas, canvas_height, inner_line, drawn_line};
ghost use Rattle.writer.specs.Writing.{Wrote};
ghost use Rattle.cm.specs.Board.{no_box, Boxed, Inner};
ghost use Rattle.cm.specs.Bears.{board_of, Bears};

use crate::board::Board;
use crate::columns::columns;
use representation::STRIDE;
use representation::rect::Rect;
use text::{ByteAt, Column};
use writer::{copy, fill, put};

// A cell's whole inner line between two borders: a space, the text, and spaces up to the right one.
fn write_inner(
    line: &[u8],
    origin: Column,
    left: Column,
    right: Column,
    out: &mut [u8],
    at: ByteAt,
) -> ByteAt
    requires origin_bound { (origin.0 ≤ 255) × (right.0 < 128) × (at.0 ≤ 2147483648) × (length line.now ≤ 512) × (well_formed line.now ≡ true) }
    requires left_bound { columns_from (origin.0 + left.0 + 2) (char_indices line.now) + left.0 + 2 ≤ right.0 }
    ensures { let text = line.now in
        let taken = columns_from (origin.0 + left.0 + 2) (char_indices text) in
        Wrote out.old at.0 (space ∷ text ++ replicate (right.0 - left.0 - 2 - taken) space) out.new result.0 }
{
    let taken = columns(line, Column(origin.0 + left.0 + 2));
    let first = put(b' ', out, at.0);
    let end = copy(line, out, first);
    ByteAt(fill(b' ', right.0 - left.0 - 2 - taken.0, out, end))
}

// The inner line y of cell k.
fn write_cell(board: &Board<'_>, y: usize, k: usize, out: &mut [u8], at: ByteAt) -> ByteAt
    requires boxed { (v : Canvas) × Boxed v board.now.cells (board_of board.now) }
    requires inner { Inner board.now.cells board.now.rects.now y k }
    requires early { at.0 ≤ 2147483648 }
    ensures wrote { (v : Canvas) → Boxed v board.now.cells (board_of board.now)
        → Wrote out.old at.0 (inner_line board.now.origin.0 (get_or v.boxes k no_box) y) out.new result.0 }
    ensures short { result.0 ≤ at.0 + 641 }
{
    let rect = Rect::at(board.rects, k);
    let line = board.lettering.line(k, y - 1 - rect.top);
    write_inner(line, board.origin, rect.left, rect.right, out, at)
}

// Line y of the drawing: each border's byte, and at a cell's first inner column its whole inner line.
pub fn write_line(board: &Board<'_>, y: usize, out: &mut [u8], at: ByteAt) -> ByteAt
    requires ready { (v : Canvas) × Bears board.now v × (y < canvas_height v) }
    requires early { at.0 ≤ 1073741824 }
    ensures wrote { (v : Canvas) → Bears board.now v → y < canvas_height v
        → Wrote out.old at.0 (drawn_line board.now.origin.0 v y).text out.new result.0 }
    ensures short { result.0 ≤ at.0 + 131072 }
{
    let across = board.width.0;
    let mut end = at;
    let mut x = 0;
    // A while: a cell's inner line is passed at once.
    while x < across {
        let code = board.canvas[y * STRIDE + x] as usize;
        if code < 256 {
            end = ByteAt(put(code as u8, out, end.0));
            x += 1;
        } else {
            let k = code - 256;
            end = write_cell(board, y, k, out, end);
            x = Rect::at(board.rects, k).right.0;
        }
    }
    end
}
