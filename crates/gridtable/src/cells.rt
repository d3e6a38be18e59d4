// The cut lines of one cell.
ghost use Rattle.std.specs.Prelude.{◌≡◌, length};
ghost use Rattle.grid.specs.TableCall.{cell_answer, cell_afterwards};
ghost use Rattle.grid.specs.LayoutCall.{spaces, drawing};
ghost use Rattle.replies.specs.CellReply.{cell_reply_of};

use cell::cell;
use replies::cells::{CellReply, cell_reply};
use representation::lent::Drawing;

// cell::cell.
#[unsafe(no_mangle)]
pub extern "C" fn grid_cell(
    lines: usize,
    bytes: usize,
    lengths: &[u16],
    columns: &[u16],
    text: &[u8],
    glyphs: &mut [u8],
    offsets: &mut [u16],
    down: &mut [u8],
    right: &mut [u8],
    rects: &mut [u8],
    starts: &mut [u16],
    k: usize,
    out: &mut [u16],
) -> CellReply
    ensures { let space = spaces glyphs.old offsets.old down.old right.old rects.old in
        let given = drawing lines bytes lengths.now columns.now text.now in
        (result ≡ cell_reply_of (cell_answer space (length starts.old) given k out.old))
        × (out.new ≡ cell_afterwards space (length starts.old) given k out.old) }
{
    let drawing = Drawing {
        lines,
        bytes,
        lengths,
        columns,
        text,
    };
    cell_reply(cell(drawing, glyphs, offsets, down, right, rects, starts, k, out))
}
