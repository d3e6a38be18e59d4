// The source positions of a table, its rows and its cells.
ghost use Rattle.std.specs.Prelude.{◌≡◌, length};
ghost use Rattle.grid.specs.LayoutCall.{spaces, drawing};
ghost use Rattle.sourcepos.specs.PositionsCall.{placed, positions_lent, positions_answer, positions_afterwards, cell_position_answer};
ghost use Rattle.replies.specs.PositionsReply.{positions_reply_of};
ghost use Rattle.replies.specs.CellPositionReply.{cell_position_reply_of};

use positions::{cell_position, positions};
use replies::source_positions::{
    CellPositionReply, PositionsReply, cell_position_reply, positions_reply,
};
use representation::lent::Drawing;

// positions::positions.
#[unsafe(no_mangle)]
pub extern "C" fn grid_positions(
    lines: usize,
    bytes: usize,
    lengths: &[u16],
    columns: &[u16],
    text: &[u8],
    numbers: &[u32],
    table_bytes: &[u32],
    glyphs: &mut [u8],
    offsets: &mut [u16],
    down: &mut [u8],
    right: &mut [u8],
    rects: &mut [u8],
    starts: &mut [u16],
    row_positions: &mut [u32],
    cell_positions: &mut [u32],
) -> PositionsReply
    ensures { let space = spaces glyphs.old offsets.old down.old right.old rects.old in
        let given = drawing lines bytes lengths.now columns.now text.now in
        let lines = placed given numbers.now table_bytes.now in
        let before = positions_lent row_positions.old cell_positions.old in
        let after = positions_lent row_positions.new cell_positions.new in
        (result ≡ positions_reply_of (positions_answer space (length starts.old) lines before))
        × (after ≡ positions_afterwards space (length starts.old) lines before) }
{
    let drawing = Drawing {
        lines,
        bytes,
        lengths,
        columns,
        text,
    };
    positions_reply(positions(
        drawing,
        numbers,
        table_bytes,
        glyphs,
        offsets,
        down,
        right,
        rects,
        starts,
        row_positions,
        cell_positions,
    ))
}

// positions::cell_position.
#[unsafe(no_mangle)]
pub extern "C" fn grid_cell_position(
    lines: usize,
    bytes: usize,
    lengths: &[u16],
    columns: &[u16],
    text: &[u8],
    numbers: &[u32],
    table_bytes: &[u32],
    glyphs: &mut [u8],
    offsets: &mut [u16],
    down: &mut [u8],
    right: &mut [u8],
    rects: &mut [u8],
    starts: &mut [u16],
    k: usize,
) -> CellPositionReply
    ensures { let space = spaces glyphs.old offsets.old down.old right.old rects.old in
        let given = drawing lines bytes lengths.now columns.now text.now in
        let lines = placed given numbers.now table_bytes.now in
        result ≡ cell_position_reply_of (cell_position_answer space (length starts.old) lines k) }
{
    let drawing = Drawing {
        lines,
        bytes,
        lengths,
        columns,
        text,
    };
    cell_position_reply(cell_position(
        drawing,
        numbers,
        table_bytes,
        glyphs,
        offsets,
        down,
        right,
        rects,
        starts,
        k,
    ))
}
