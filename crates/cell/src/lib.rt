// The cut lines of one cell of a drawing (mod.rs: build_grid_table).
#![tactic(auto)]

pub mod cuts;
pub mod lines;
pub mod pieces;
pub mod source;

ghost use Rattle.std.specs.Prelude.{◌≤◌, ◌≡◌, length};
ghost use Rattle.grid.specs.Limits.{max_lines};
ghost use Rattle.grid.specs.LayoutCall.{spaces};
ghost use Rattle.grid.specs.TableCall.{cell_answer, cell_afterwards};
ghost use Rattle.representation.specs.Arrays.{rect_in};
ghost use Rattle.representation.specs.Lent.{drawing_of};
ghost use Rattle.reading.specs.Sheets.{arrays_in};
ghost use Rattle.cell.specs.Text.{source_in};
ghost use Rattle.cell.specs.Cuts.{cuts_of};
ghost use Rattle.cell.specs.Answer.{cell_answer_of, cell_count_of, cell_array_of};

use crate::pieces::line_starts;
use crate::source::Source;
use reading::{TracedDrawing, read};
use refusals::Refusal;
use representation::lent::Drawing;
use representation::rect::Rect;

const MAX_LINES: usize = 128;

// From the traced rectangles to the cut lines of cell k. `starts` is working space.
fn finish_cell(
    traced: TracedDrawing<'_>,
    starts: &mut [u16],
    k: usize,
    out: &mut [u16],
) -> Result<usize, Refusal>
    requires { max_lines ≤ length starts.old }
    ensures answer { let cuts = cuts_of (source_in (arrays_in traced.entry) starts.old) (rect_in traced.entry.rects.now k) in
        cell_answer_of result ≡ cell_count_of traced.entry.reading.cells k cuts out.old }
    ensures written { let cuts = cuts_of (source_in (arrays_in traced.entry) starts.old) (rect_in traced.entry.rects.now k) in
        out.new ≡ cell_array_of traced.entry.reading.cells k cuts out.old }
{
    let n = traced.reading.cells;
    if n <= k {
        return Err(Refusal::Contradiction);
    }
    let rect = Rect::at(traced.rects, k);
    let count = rect.bottom - rect.top - 1;
    if out.len() < 4 * count {
        return Err(Refusal::OutputShort);
    }
    line_starts(traced.drawing.lengths, starts);
    let source = Source {
        lengths: traced.drawing.lengths,
        columns: traced.drawing.columns,
        text: traced.drawing.text,
        offsets: traced.offsets,
        starts,
    };
    source.write_cuts(rect, out);
    Ok(count)
}

// The cut lines of cell k of a drawing, blank ones too: for each inner line its index, where its cut
// starts and ends in it, and its column. Answers how many. Working space: glyphs, offsets, down and
// right of 16,384 entries each, rects of 4,096, starts of 128.
pub fn cell(
    drawing: Drawing<'_>,
    glyphs: &mut [u8],
    offsets: &mut [u16],
    down: &mut [u8],
    right: &mut [u8],
    rects: &mut [u8],
    starts: &mut [u16],
    k: usize,
    out: &mut [u16],
) -> Result<usize, Refusal>
    ensures answer { let space = spaces glyphs.old offsets.old down.old right.old rects.old in
        cell_answer_of result ≡ cell_answer space (length starts.old) (drawing_of drawing.entry) k out.old }
    ensures afterwards { let space = spaces glyphs.old offsets.old down.old right.old rects.old in
        out.new ≡ cell_afterwards space (length starts.old) (drawing_of drawing.entry) k out.old }
{
    if starts.len() < MAX_LINES {
        return Err(Refusal::Contradiction);
    }
    let reading = read(drawing, glyphs, offsets, down, right, rects)?;
    let traced = TracedDrawing {
        drawing,
        glyphs,
        offsets,
        rects,
        reading,
    };
    finish_cell(traced, starts, k, out)
}
