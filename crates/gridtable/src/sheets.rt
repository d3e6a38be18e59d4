// From a drawing to its redrawing.
ghost use Rattle.std.specs.Prelude.{◌≡◌};
ghost use Rattle.grid.specs.LayoutCall.{spaces, drawing};
ghost use Rattle.grid.specs.TableCall.{table_spaces};
ghost use Rattle.drawing.specs.RedrawCall.{redraw_spaces, drawing_lent};
ghost use Rattle.drawing.specs.SheetCall.{sheet_spaces, sheet_answer, sheet_afterwards};
ghost use Rattle.replies.specs.SheetReply.{sheet_reply_of};

use redrawing::redraw_sheet;
use replies::sheets::{SheetReply, sheet_reply};
use representation::lent::Drawing;

// redrawing::redraw_sheet.
#[unsafe(no_mangle)]
pub extern "C" fn grid_redraw_sheet(
    origin: usize,
    lines: usize,
    bytes: usize,
    lengths: &[u16],
    columns: &[u16],
    text: &[u8],
    glyphs: &mut [u8],
    offsets: &mut [u16],
    down: &mut [u8],
    right: &mut [u8],
    rects: &mut [u8],
    starts: &mut [u16],
    counts: &mut [u8],
    cols: &mut [u16],
    sections: &mut [u8],
    cells: &mut [u16],
    table_lengths: &mut [u16],
    table_text: &mut [u8],
    line_starts: &mut [u16],
    line_ends: &mut [u16],
    firsts: &mut [u16],
    heights: &mut [u16],
    wides: &mut [u16],
    frames: &mut [u8],
    canvas: &mut [u16],
    out_lengths: &mut [u16],
    out_columns: &mut [u16],
    out_text: &mut [u8],
) -> SheetReply
    ensures { let space = spaces glyphs.old offsets.old down.old right.old rects.old in
        let more = table_spaces starts.old counts.old in
        let between = sheet_spaces cols.old sections.old cells.old table_lengths.old
        table_text.old in
        let work = redraw_spaces line_starts.old line_ends.old firsts.old heights.old
        wides.old frames.old canvas.old in
        let given = drawing lines bytes lengths.now columns.now text.now in
        let before = drawing_lent out_lengths.old out_columns.old out_text.old in
        let after = drawing_lent out_lengths.new out_columns.new out_text.new in
        (result ≡ sheet_reply_of (sheet_answer space more between work given origin before))
        × (after ≡ sheet_afterwards space more between work given origin before) }
{
    let given = Drawing {
        lines,
        bytes,
        lengths,
        columns,
        text,
    };
    sheet_reply(redraw_sheet(
        origin,
        given,
        glyphs,
        offsets,
        down,
        right,
        rects,
        starts,
        counts,
        cols,
        sections,
        cells,
        table_lengths,
        table_text,
        line_starts,
        line_ends,
        firsts,
        heights,
        wides,
        frames,
        canvas,
        out_lengths,
        out_columns,
        out_text,
    ))
}
