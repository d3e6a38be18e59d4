// The layout call (layout.rs: Grid::layout). The drawing
//
//     +---+---+
//     | a | b |
//     +---+---+
//
// is 3 lines and 27 bytes with the lengths 9 9 9 and, at the margin, the columns 0 0 0. The answer
// is width 9, 2 columns, 1 row, 2 cells and 2 ranges; written are the columns 0 3, 0 3 (alignment,
// width), the row 1 0 2 (section, top, bottom), the cells 0 0 1 1 0, 0 1 1 1 4 (row, column,
// colspan, rowspan, left) and the ranges 1 4, 5 8 (start, end; one for each inner line of a cell).
#![tactic(auto)]

pub mod alignments;
pub mod arrays;
pub mod bounds;
pub mod cell_entries;
pub mod column_entries;
pub mod range_entries;
pub mod row_entries;
pub mod sections;
pub mod sizes;

ghost use Rattle.std.specs.Prelude.{◌≡◌};
ghost use Rattle.grid.specs.LayoutCall.{layout_answer, layout_afterwards, spaces};
ghost use Rattle.representation.specs.Lent.{drawing_of};
ghost use Rattle.representation.specs.LayoutParts.{finish_sizes, finish_arrays};
ghost use Rattle.reading.specs.Call.{lines_in, rects_in};
ghost use Rattle.reading.specs.Sheets.{arrays_in};
ghost use Rattle.layout.specs.Call.{layout_answer_of, layout_lent};

use crate::alignments::AlignmentLine;
use crate::arrays::write_layout;
use crate::sections::find_parts;
use crate::sizes::measure;
use reading::{TracedDrawing, read, trimmed_line};
use refusals::Refusal;
use representation::lent::Drawing;
use representation::rects::Rects;
use text::Column;

/// The width of a drawing, and how many columns, rows, cells and ranges were written.
#[derive(Clone, Copy, Debug, PartialEq, Eq)]
pub struct LayoutSizes {
    pub width: Column,
    pub columns: usize,
    pub rows: usize,
    pub cells: usize,
    pub ranges: usize,
}

// From the traced rectangles to the layout.
fn finish(
    traced: TracedDrawing<'_>,
    cols: &mut [u16],
    rows: &mut [u16],
    cells: &mut [u16],
    ranges: &mut [u16],
) -> Result<LayoutSizes, Refusal>
    ensures { let before = layout_lent cols.old rows.old cells.old ranges.old in
        let after = layout_lent cols.new rows.new cells.new ranges.new in
        let sheet = arrays_in traced.entry in
        let rs = rects_in sheet traced.entry.reading.cells in
        (layout_answer_of result ≡ finish_sizes (lines_in sheet) rs before)
        × (after ≡ finish_arrays (lines_in sheet) rs before) }
{
    let drawing = traced.drawing;
    let reading = traced.reading;
    let height = drawing.lengths.len();
    let rects = Rects {
        array: traced.rects,
        count: reading.cells,
    };
    let measured = measure(
        rects,
        height,
        reading.width,
        cols.len(),
        rows.len(),
        cells.len(),
        ranges.len(),
    );
    if measured.short {
        return Err(Refusal::OutputShort);
    }
    let separators = reading.separators;
    let parts = find_parts(&separators.lines[..separators.count], height);
    let line = AlignmentLine {
        glyphs: traced.glyphs,
        offsets: traced.offsets,
        line: parts.head,
        text: trimmed_line(drawing.lengths, drawing.text, parts.head),
    };
    write_layout(
        rects,
        measured.tops.numbering(),
        measured.lefts,
        parts,
        line,
        traced.offsets,
        cols,
        rows,
        cells,
        ranges,
    );
    Ok(measured.sizes)
}

// The layout of a drawing. Working space: glyphs, offsets, down and right of 16,384 entries each,
// rects of 4,096.
pub fn layout(
    drawing: Drawing<'_>,
    glyphs: &mut [u8],
    offsets: &mut [u16],
    down: &mut [u8],
    right: &mut [u8],
    rects: &mut [u8],
    cols: &mut [u16],
    rows: &mut [u16],
    cells: &mut [u16],
    ranges: &mut [u16],
) -> Result<LayoutSizes, Refusal>
    ensures { let space = spaces glyphs.old offsets.old down.old right.old rects.old in
        let given = drawing_of drawing.entry in
        let before = layout_lent cols.old rows.old cells.old ranges.old in
        let after = layout_lent cols.new rows.new cells.new ranges.new in
        (layout_answer_of result ≡ layout_answer space given before)
        × (after ≡ layout_afterwards space given before) }
{
    let reading = read(drawing, glyphs, offsets, down, right, rects)?;
    let traced = TracedDrawing {
        drawing,
        glyphs,
        offsets,
        rects,
        reading,
    };
    finish(traced, cols, rows, cells, ranges)
}
