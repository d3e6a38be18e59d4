// From a drawing to its table.
ghost use Rattle.std.specs.Prelude.{◌≡◌};
ghost use Rattle.grid.specs.TableCall.{table_answer, table_afterwards, table_spaces};
ghost use Rattle.grid.specs.LayoutCall.{spaces, drawing};
ghost use Rattle.table.specs.Call.{arrays};
ghost use Rattle.replies.specs.TableReply.{table_reply_of};

use replies::tables::{TableReply, table_reply};
use representation::lent::Drawing;
use table::table;

// table::table.
#[unsafe(no_mangle)]
pub extern "C" fn grid_table(
    lines: usize,
    bytes: usize,
    lengths: &[u16],
    columns: &[u16],
    text: &[u8],
    glyphs: &mut [u8],
    offsets: &mut [u16],
    down: &mut [u8],
    right: &mut [u8],
    rects: &mut [u8],
    starts: &mut [u16],
    counts: &mut [u8],
    cols: &mut [u16],
    sections: &mut [u8],
    cells: &mut [u16],
    out_lengths: &mut [u16],
    out_text: &mut [u8],
) -> TableReply
    ensures { let space = spaces glyphs.old offsets.old down.old right.old rects.old in
        let more = table_spaces starts.old counts.old in
        let given = drawing lines bytes lengths.now columns.now text.now in
        let before = arrays cols.old sections.old cells.old out_lengths.old out_text.old in
        let after = arrays cols.new sections.new cells.new out_lengths.new out_text.new in
        (result ≡ table_reply_of (table_answer space more given before))
        × (after ≡ table_afterwards space more given before) }
{
    let drawing = Drawing {
        lines,
        bytes,
        lengths,
        columns,
        text,
    };
    table_reply(table(
        drawing,
        glyphs,
        offsets,
        down,
        right,
        rects,
        starts,
        counts,
        cols,
        sections,
        cells,
        out_lengths,
        out_text,
    ))
}
