// Cutting one line.
ghost use Rattle.std.specs.Prelude.{◌≡◌};
ghost use Rattle.grid.specs.CutCall.{cut_numbers_answer};
ghost use Rattle.replies.specs.CutReply.{cut_reply_of};
ghost use Rattle.fragments.specs.View.{line_given, range_given};

use fragments::{CellLine, cell_fragment};
use replies::fragment::{CutReply, cut_reply};
use text::{ByteAt, Column};

// cut::cell_fragment.
#[unsafe(no_mangle)]
pub extern "C" fn grid_cell_fragment(
    text: &[u8],
    column: usize,
    line: usize,
    table_byte: usize,
    start: usize,
    end: usize,
    left: usize,
) -> CutReply
    ensures { result ≡ cut_reply_of (cut_numbers_answer (line_given text.now column) line table_byte (range_given start end) left) }
{
    cut_reply(cell_fragment(CellLine {
        text,
        column: Column(column),
        line,
        table_byte: ByteAt(table_byte),
        start: ByteAt(start),
        end: ByteAt(end),
        left: Column(left),
    }))
}
