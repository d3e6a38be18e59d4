// Reading a drawing up to its traced rectangles, in the order of the checks (layout.rs: layout).
#![tactic(auto)]

pub mod checks;
pub mod limits;

ghost use Rattle.std.specs.Prelude.{◌^◌, ◌≤◌, ◌<◌, ◌≡◌, true, length, get_or, take, IfOk};
ghost use Rattle.seq.specs.Lists.{sum};
ghost use Rattle.text.specs.Trim.{trim_end};
ghost use Rattle.text.specs.Lines.{no_text};
ghost use Rattle.text.specs.Utf8.{plain};
ghost use Rattle.grid.specs.Flat.{split_text, lines_of};
ghost use Rattle.grid.specs.LayoutCall.{slot_space, rect_space, spaces};
ghost use Rattle.grid.specs.Slots.{grid_of, trimmed_at};
ghost use Rattle.refusals.specs.Refusal.{answer_from};
ghost use Rattle.representation.specs.LayoutParts.{rects_answer, width_answer, grid_answer};
ghost use Rattle.representation.specs.Lent.{drawing_of};
ghost use Rattle.slots.specs.Filling.{Fillable};
ghost use Rattle.slots.specs.Scan.{SheetScanned};
ghost use Rattle.reading.specs.Call.{Through, TracedSheet, sheet_of, lines_in, rects_in};

use crate::checks::{contradicts, scan_lines};
use crate::limits::{space_short, too_large, too_wide};
use refusals::Refusal;
use representation::lent::Drawing;
use rule_lines::rule::is_rule;
use rule_lines::trim::trim_end;
use slots::Separators;
use slots::fill::fill;
use slots::line::plain_width;
use slots::reach::{reach_down, reach_right};
use text::Column;
use trace::borders::Borders;
use trace::trace;

// What reading a drawing gives: its width, how many rectangles and the separators.
#[derive(Clone, Copy)]
pub struct Reading {
    pub width: Column,
    pub cells: usize,
    pub separators: Separators,
}

// A drawing that was read, with the glyphs, offsets and rectangles that reading left in the working space.
#[derive(Clone, Copy)]
pub struct TracedDrawing<'a> {
    pub drawing: Drawing<'a>,
    pub glyphs: &'a [u8],
    pub offsets: &'a [u16],
    pub rects: &'a [u8],
    pub reading: Reading,
    pub ghost traced: { TracedSheet (sheet_of (drawing_of drawing) glyphs.now offsets.now rects.now) reading },
}

// Where line y begins in the text.
fn line_start(lengths: &[u16], y: usize) -> usize
    requires { sum lengths.now < 2 ^ 64 }
    ensures { result ≡ sum (take y lengths.now) }
{
    lengths.iter().take(y).map(|n| *n as usize).sum()
}

// Line y, trimmed: a part of the text.
pub fn trimmed_line<'a>(lengths: &[u16], text: &'a [u8], y: usize) -> &'a [u8]
    requires { (sum lengths.now ≡ length text.now) × (y < length lengths.now) }
    ensures { result.now ≡ trim_end (get_or (split_text lengths.now text.now) y no_text) }
{
    let at = line_start(lengths, y);
    let end = at + lengths[y] as usize;
    trim_end(&text[at..end])
}

// The width, after the checks up to it. Each line's slots, or what else is known of it, are left in the working
// space on the way.
fn checked(
    drawing: Drawing<'_>,
    glyphs: &mut [u8],
    offsets: &mut [u16],
    counts: &mut [u8],
) -> Result<Column, Refusal>
    requires { (slot_space ≤ length glyphs.old) × (slot_space ≤ length offsets.old) × (128 ≤ length counts.old) }
    ensures answer { answer_from (λ (w : Column). w.0) result ≡ width_answer (drawing_of drawing.entry) }
    ensures scanned { let all = lines_of (drawing_of drawing.entry) in
        IfOk result (λ w. SheetScanned all glyphs.new offsets.new counts.new) }
    ensures plain_top { let all = lines_of (drawing_of drawing.entry) in
        IfOk result (λ w. plain (trimmed_at all 0) ≡ true) }
{
    if contradicts(drawing) {
        return Err(Refusal::Contradiction);
    }
    if drawing.lines == 0 {
        return Err(Refusal::Empty);
    }
    if too_large(drawing) {
        return Err(Refusal::TooLarge);
    }
    if let Some(line) = scan_lines(drawing, glyphs, offsets, counts) {
        return Err(Refusal::OutsideSet { line });
    }
    let top = trimmed_line(drawing.lengths, drawing.text, 0);
    if !is_rule(top, b'-') {
        return Err(Refusal::NoRule);
    }
    let width = plain_width(top);
    if too_wide(width) {
        return Err(Refusal::TooLarge);
    }
    Ok(width)
}

// The checks of the slots, and tracing. `rects` holds at first how many columns the lines have.
fn trace_lines(
    drawing: Drawing<'_>,
    width: Column,
    glyphs: &mut [u8],
    offsets: &mut [u16],
    down: &mut [u8],
    right: &mut [u8],
    rects: &mut [u8],
) -> Result<Reading, Refusal>
    requires fillable { Fillable drawing.lengths.now drawing.columns.now drawing.text.now width.0 rects.old glyphs.old offsets.old }
    requires room { (slot_space ≤ length down.old) × (slot_space ≤ length right.old) × (rect_space ≤ length rects.old) }
    ensures answer { let left = sheet_of (drawing_of drawing.entry) glyphs.new offsets.new rects.new in
        answer_from (λ (s : Reading). rects_in left s.cells) result ≡ grid_answer (grid_of (lines_in left)) }
    ensures through { let left = sheet_of (drawing_of drawing.entry) glyphs.new offsets.new rects.new in
        IfOk result (λ s. Through (grid_of (lines_in left)) left.glyphs left.offsets left.rects s) }
{
    let separators = fill(drawing.lengths, drawing.text, width, rects, glyphs, offsets)?;
    let height = drawing.lengths.len();
    reach_right(glyphs, height, width.0, right);
    reach_down(glyphs, height, width.0, down);
    let borders = Borders {
        height,
        width: width.0,
        glyphs,
        down,
        right,
    };
    let cells = trace(&borders, rects)?;
    Ok(Reading {
        width,
        cells,
        separators,
    })
}

// A drawing read up to its rectangles. Working space: glyphs, offsets, down and right of 16,384
// entries each, rects of 4,096.
pub fn read(
    drawing: Drawing<'_>,
    glyphs: &mut [u8],
    offsets: &mut [u16],
    down: &mut [u8],
    right: &mut [u8],
    rects: &mut [u8],
) -> Result<Reading, Refusal>
    ensures answer { let space = spaces glyphs.old offsets.old down.old right.old rects.old in
        let given = drawing_of drawing.entry in
        let left = sheet_of given glyphs.new offsets.new rects.new in
        answer_from (λ (s : Reading). rects_in left s.cells) result ≡ rects_answer space given }
    ensures traced { let left = sheet_of (drawing_of drawing.entry) glyphs.new offsets.new rects.new in
        IfOk result (λ s. TracedSheet left s) }
{
    if space_short(
        glyphs.len(),
        offsets.len(),
        down.len(),
        right.len(),
        rects.len(),
    ) {
        return Err(Refusal::Contradiction);
    }
    let width = checked(drawing, glyphs, offsets, rects)?;
    trace_lines(drawing, width, glyphs, offsets, down, right, rects)
}
