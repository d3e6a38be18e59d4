// From a drawing to its table (mod.rs: build_grid_table).
#![tactic(auto)]

pub mod cells;
pub mod lines;
pub mod room;
pub mod sections;

ghost use Rattle.std.specs.Prelude.{◌≤◌, ◌≡◌, length};
ghost use Rattle.grid.specs.Flat.{table_arrays};
ghost use Rattle.grid.specs.Limits.{max_lines, max_cells};
ghost use Rattle.grid.specs.LayoutCall.{spaces};
ghost use Rattle.grid.specs.TableCall.{table_over, table_answer, table_afterwards, table_spaces};
ghost use Rattle.representation.specs.Lent.{drawing_of};
ghost use Rattle.representation.specs.TableParts.{table_from, table_sizes_of, table_arrays_of};
ghost use Rattle.reading.specs.Call.{lines_in, rects_in};
ghost use Rattle.reading.specs.Sheets.{arrays_in};
ghost use Rattle.table.specs.Needs.{Writable};
ghost use Rattle.table.specs.Call.{answer_of, arrays};

use crate::cells::write_table_cells;
use crate::lines::write_text;
use crate::room::lacks_room;
use crate::sections::write_sections;
use cell::pieces::prepare;
use cell::source::Source;
use layout::alignments::AlignmentLine;
use layout::bounds::{col_bounds, row_bounds};
use layout::column_entries::write_columns;
use layout::sections::find_parts;
use reading::{TracedDrawing, read, trimmed_line};
use refusals::Refusal;
use representation::Bounds;
use representation::lent::Drawing;
use representation::rects::Rects;

const MAX_LINES: usize = 128;

const MAX_CELLS: usize = 1024;

// How many columns, rows, cells, lines and bytes were written.
#[derive(Clone, Copy, Debug, PartialEq, Eq)]
pub struct TableSizes {
    pub columns: usize,
    pub rows: usize,
    pub cells: usize,
    pub lines: usize,
    pub bytes: usize,
}

// Writes the five arrays.
fn write_table(
    traced: TracedDrawing<'_>,
    starts: &[u16],
    counts: &[u8],
    tops: Bounds,
    lefts: Bounds,
    cols: &mut [u16],
    sections: &mut [u8],
    cells: &mut [u16],
    out_lengths: &mut [u16],
    out_text: &mut [u8],
)
    requires { let out = arrays cols.old sections.old cells.old out_lengths.old out_text.old in
        Writable (arrays_in traced) traced.reading starts.now counts.now tops lefts out }
    ensures { let before = arrays cols.old sections.old cells.old out_lengths.old out_text.old in
        let after = arrays cols.new sections.new cells.new out_lengths.new out_text.new in
        let sheet = arrays_in traced.entry in
        let rs = rects_in sheet traced.entry.reading.cells in
        after ≡ table_over (table_arrays (table_from (lines_in sheet) rs)) before }
{
    let source = Source {
        lengths: traced.drawing.lengths,
        columns: traced.drawing.columns,
        text: traced.drawing.text,
        offsets: traced.offsets,
        starts,
    };
    let rects = Rects {
        array: traced.rects,
        count: traced.reading.cells,
    };
    let separators = traced.reading.separators;
    let height = traced.drawing.lengths.len();
    let parts = find_parts(&separators.lines[..separators.count], height);
    let line = AlignmentLine {
        glyphs: traced.glyphs,
        offsets: traced.offsets,
        line: parts.head,
        text: trimmed_line(traced.drawing.lengths, traced.drawing.text, parts.head),
    };
    write_columns(lefts, line, cols);
    let rows = tops.numbering();
    write_sections(rows, parts, sections);
    write_table_cells(rects, rows, lefts.numbering(), counts, cells);
    write_text(&source, rects, counts, out_lengths, out_text);
}

// From the traced rectangles to the table. `starts` and `counts` are working space.
fn finish(
    traced: TracedDrawing<'_>,
    starts: &mut [u16],
    counts: &mut [u8],
    cols: &mut [u16],
    sections: &mut [u8],
    cells: &mut [u16],
    out_lengths: &mut [u16],
    out_text: &mut [u8],
) -> Result<TableSizes, Refusal>
    requires { (max_lines ≤ length starts.old) × (max_cells ≤ length counts.old) }
    ensures answer { let before = arrays cols.old sections.old cells.old out_lengths.old out_text.old in
        let sheet = arrays_in traced.entry in
        let rs = rects_in sheet traced.entry.reading.cells in
        answer_of result ≡ table_sizes_of (lines_in sheet) rs before }
    ensures written { let before = arrays cols.old sections.old cells.old out_lengths.old out_text.old in
        let after = arrays cols.new sections.new cells.new out_lengths.new out_text.new in
        let sheet = arrays_in traced.entry in
        let rs = rects_in sheet traced.entry.reading.cells in
        after ≡ table_arrays_of (lines_in sheet) rs before }
{
    let drawing = traced.drawing;
    let rects = Rects {
        array: traced.rects,
        count: traced.reading.cells,
    };
    let tops = row_bounds(rects, drawing.lengths.len());
    let lefts = col_bounds(rects, traced.reading.width);
    let text = prepare(
        drawing.lengths,
        drawing.columns,
        drawing.text,
        traced.offsets,
        rects,
        starts,
        counts,
    );
    let sizes = TableSizes {
        columns: lefts.bands(),
        rows: tops.bands(),
        cells: traced.reading.cells,
        lines: text.lines,
        bytes: text.bytes,
    };
    let short = lacks_room(
        sizes,
        cols.len(),
        sections.len(),
        cells.len(),
        out_lengths.len(),
        out_text.len(),
    );
    if short {
        return Err(Refusal::OutputShort);
    }
    write_table(
        traced,
        starts,
        counts,
        tops,
        lefts,
        cols,
        sections,
        cells,
        out_lengths,
        out_text,
    );
    Ok(sizes)
}

// The table of a drawing. Working space: glyphs, offsets, down and right of 16,384 entries each,
// rects of 4,096, starts of 128, counts of 1,024.
pub fn table(
    drawing: Drawing<'_>,
    glyphs: &mut [u8],
    offsets: &mut [u16],
    down: &mut [u8],
    right: &mut [u8],
    rects: &mut [u8],
    starts: &mut [u16],
    counts: &mut [u8],
    cols: &mut [u16],
    sections: &mut [u8],
    cells: &mut [u16],
    out_lengths: &mut [u16],
    out_text: &mut [u8],
) -> Result<TableSizes, Refusal>
    ensures { let space = spaces glyphs.old offsets.old down.old right.old rects.old in
        let more = table_spaces starts.old counts.old in
        let given = drawing_of drawing.entry in
        let before = arrays cols.old sections.old cells.old out_lengths.old out_text.old in
        let after = arrays cols.new sections.new cells.new out_lengths.new out_text.new in
        (answer_of result ≡ table_answer space more given before)
        × (after ≡ table_afterwards space more given before) }
{
    if starts.len() < MAX_LINES || counts.len() < MAX_CELLS {
        return Err(Refusal::Contradiction);
    }
    let reading = read(drawing, glyphs, offsets, down, right, rects)?;
    let traced = TracedDrawing {
        drawing,
        glyphs,
        offsets,
        rects,
        reading,
    };
    finish(
        traced,
        starts,
        counts,
        cols,
        sections,
        cells,
        out_lengths,
        out_text,
    )
}
