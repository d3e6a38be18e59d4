// From a table to its drawing.
ghost use Rattle.std.specs.Prelude.{◌≡◌};
ghost use Rattle.drawing.specs.RedrawCall.{redraw_spaces, table_given, table_lent, drawing_lent, redraw_answer, redraw_afterwards};
ghost use Rattle.replies.specs.RedrawReply.{redraw_reply_of};

use cm::redraw;
use replies::redraws::{RedrawReply, redraw_reply};
use representation::lent::Table;

// cm::redraw.
#[unsafe(no_mangle)]
pub extern "C" fn grid_redraw(
    origin: usize,
    columns: usize,
    rows: usize,
    cells: usize,
    lines: usize,
    bytes: usize,
    cols: &[u16],
    sections: &[u8],
    cell_numbers: &[u16],
    lengths: &[u16],
    text: &[u8],
    starts: &mut [u16],
    ends: &mut [u16],
    firsts: &mut [u16],
    heights: &mut [u16],
    wides: &mut [u16],
    rects: &mut [u8],
    canvas: &mut [u16],
    out_lengths: &mut [u16],
    out_columns: &mut [u16],
    out_text: &mut [u8],
) -> RedrawReply
    ensures { let space = redraw_spaces starts.old ends.old firsts.old heights.old wides.old
        rects.old canvas.old in
        let sizes = table_given columns rows cells lines bytes in
        let table = table_lent cols.now sections.now cell_numbers.now lengths.now text.now in
        let before = drawing_lent out_lengths.old out_columns.old out_text.old in
        let after = drawing_lent out_lengths.new out_columns.new out_text.new in
        (result ≡ redraw_reply_of (redraw_answer space origin sizes table before))
        × (after ≡ redraw_afterwards space origin sizes table before) }
{
    let table = Table {
        columns,
        rows,
        cells,
        lines,
        bytes,
        column_entries: cols,
        sections,
        cell_entries: cell_numbers,
        lengths,
        text,
    };
    redraw_reply(redraw(
        origin,
        table,
        starts,
        ends,
        firsts,
        heights,
        wides,
        rects,
        canvas,
        out_lengths,
        out_columns,
        out_text,
    ))
}
