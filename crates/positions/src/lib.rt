// The source positions of a table, its rows and its cells (mod.rs: build_grid_table).
#![tactic(auto)]

pub mod cells;
pub mod checks;
pub mod lines;
pub mod rows;
pub mod span;

ghost use Rattle.std.specs.Prelude.{◌≡◌, ◌≤◌, length, IfOk};
ghost use Rattle.grid.specs.Limits.{max_lines};
ghost use Rattle.grid.specs.LayoutCall.{spaces};
ghost use Rattle.refusals.specs.Refusal.{answer_from};
ghost use Rattle.representation.specs.Edges.{row_lines_below};
ghost use Rattle.representation.specs.Lent.{drawing_of};
ghost use Rattle.reading.specs.Call.{sheet_of, lines_in, rects_in, TracedSheet};
ghost use Rattle.reading.specs.Sheets.{arrays_in};
ghost use Rattle.sourcepos.specs.PositionsCall.{placed, positions_lent, positions_answer, positions_afterwards, cell_position_answer};
ghost use Rattle.positions.specs.Lent.{placed_by};
ghost use Rattle.positions.specs.Needs.{PlacedSheet};
ghost use Rattle.positions.specs.Parts.{placed_rects, spans_found, spans_written, span_at};
ghost use Rattle.positions.specs.Answer.{positions_of, cell_position_of};

use crate::cells::PlacedSlots;
use crate::checks::check_placed;
use crate::lines::NumberedLines;
use crate::rows::StartedLines;
use crate::span::Sourcepos;
use cell::pieces::line_starts;
use layout::bounds::row_bounds;
use reading::{Reading, TracedDrawing, read};
use refusals::Refusal;
use representation::lent::Drawing;
use representation::rect::Rect;
use representation::rects::Rects;

// The table's position, and how many rows and cells were written.
#[derive(Clone, Copy, Debug, PartialEq, Eq)]
pub struct PositionsFound {
    pub table: Sourcepos,
    pub rows: usize,
    pub cells: usize,
}

// A drawing with its line and byte numbers, read up to its rectangles.
fn read_placed(
    drawing: Drawing<'_>,
    numbers: &[u32],
    table_bytes: &[u32],
    glyphs: &mut [u8],
    offsets: &mut [u16],
    down: &mut [u8],
    right: &mut [u8],
    rects: &mut [u8],
    starts: usize,
) -> Result<Reading, Refusal>
    ensures answer { let space = spaces glyphs.old offsets.old down.old right.old rects.old in
        let left = sheet_of (drawing_of drawing.entry) glyphs.new offsets.new rects.new in
        answer_from (λ (s : _). rects_in left s.cells) result ≡ placed_rects space starts (placed (drawing_of drawing.entry) numbers.now table_bytes.now) }
    ensures traced { let left = sheet_of (drawing_of drawing.entry) glyphs.new offsets.new rects.new in
        IfOk result (λ s. TracedSheet left s) }
    ensures numbered { IfOk result (λ _. PlacedSheet drawing.entry.lengths.now numbers.now table_bytes.now starts) }
{
    check_placed(
        drawing,
        numbers,
        table_bytes,
        glyphs.len(),
        offsets.len(),
        down.len(),
        right.len(),
        rects.len(),
        starts,
    )?;
    read(drawing, glyphs, offsets, down, right, rects)
}

// From the traced rectangles to the positions. `starts` is working space.
fn finish(
    traced: TracedDrawing<'_>,
    lines: NumberedLines<'_>,
    starts: &mut [u16],
    row_positions: &mut [u32],
    cell_positions: &mut [u32],
) -> Result<PositionsFound, Refusal>
    requires room { max_lines ≤ length starts.old }
    requires agree { length lines.numbers.now ≡ length traced.drawing.lengths.now }
    ensures answer { let sheet = arrays_in traced.entry in
        let rows = row_lines_below (length sheet.lengths) (rects_in sheet traced.entry.reading.cells) in
        positions_of result ≡ spans_found (placed_by lines.entry (lines_in sheet)) rows traced.entry.reading.cells (positions_lent row_positions.old cell_positions.old) }
    ensures written { let sheet = arrays_in traced.entry in
        let rs = rects_in sheet traced.entry.reading.cells in
        positions_lent row_positions.new cell_positions.new
        ≡ spans_written (placed_by lines.entry (lines_in sheet)) sheet.offsets (row_lines_below (length sheet.lengths) rs) rs (positions_lent row_positions.old cell_positions.old) }
{
    let lengths = traced.drawing.lengths;
    let text = traced.drawing.text;
    let offsets = traced.offsets;
    let height = lengths.len();
    let rects = Rects {
        array: traced.rects,
        count: traced.reading.cells,
    };
    let tops = row_bounds(rects, height);
    let rows = tops.bands();
    if row_positions.len() < 4 * rows || cell_positions.len() < 4 * rects.count {
        return Err(Refusal::OutputShort);
    }
    line_starts(lengths, starts);
    let started = StartedLines {
        lengths,
        text,
        starts,
        lines,
    };
    started.write_rows(tops, row_positions);
    let slots = PlacedSlots { lines, offsets };
    slots.write_cells(rects, cell_positions);
    Ok(PositionsFound {
        table: started.whole(0, height - 1),
        rows,
        cells: rects.count,
    })
}

// The positions of a drawing's table, given each line's number and the byte at which the table
// starts in it: the table's, and for each row and each cell four numbers (start line, start column,
// end line, end column). Working space: glyphs, offsets, down and right of 16,384 entries each,
// rects of 4,096, starts of 128.
pub fn positions<'l>(
    drawing: Drawing<'_>,
    numbers: &'l [u32],
    table_bytes: &'l [u32],
    glyphs: &mut [u8],
    offsets: &mut [u16],
    down: &mut [u8],
    right: &mut [u8],
    rects: &mut [u8],
    starts: &mut [u16],
    row_positions: &mut [u32],
    cell_positions: &mut [u32],
) -> Result<PositionsFound, Refusal>
    ensures { let space = spaces glyphs.old offsets.old down.old right.old rects.old in
        let lines = placed (drawing_of drawing.entry) numbers.now table_bytes.now in
        let before = positions_lent row_positions.old cell_positions.old in
        let after = positions_lent row_positions.new cell_positions.new in
        (positions_of result ≡ positions_answer space (length starts.old) lines before)
        × (after ≡ positions_afterwards space (length starts.old) lines before) }
{
    let room = starts.len();
    let reading = read_placed(
        drawing,
        numbers,
        table_bytes,
        glyphs,
        offsets,
        down,
        right,
        rects,
        room,
    )?;
    let traced = TracedDrawing {
        drawing,
        glyphs,
        offsets,
        rects,
        reading,
    };
    let lines = NumberedLines {
        numbers,
        table_bytes,
    };
    finish(traced, lines, starts, row_positions, cell_positions)
}

// The position of cell k of a drawing's table. Working space as for the positions of all.
pub fn cell_position<'l>(
    drawing: Drawing<'_>,
    numbers: &'l [u32],
    table_bytes: &'l [u32],
    glyphs: &mut [u8],
    offsets: &mut [u16],
    down: &mut [u8],
    right: &mut [u8],
    rects: &mut [u8],
    starts: &mut [u16],
    k: usize,
) -> Result<Sourcepos, Refusal>
    ensures { let space = spaces glyphs.old offsets.old down.old right.old rects.old in
        let lines = placed (drawing_of drawing.entry) numbers.now table_bytes.now in
        cell_position_of result ≡ cell_position_answer space (length starts.old) lines k }
{
    let room = starts.len();
    let reading = read_placed(
        drawing,
        numbers,
        table_bytes,
        glyphs,
        offsets,
        down,
        right,
        rects,
        room,
    )?;
    if reading.cells <= k {
        return Err(Refusal::Contradiction);
    }
    let lines = NumberedLines {
        numbers,
        table_bytes,
    };
    let slots = PlacedSlots { lines, offsets };
    Ok(slots.position(Rect::at(rects, k)))
}
