// Redrawing a table (cm/grid_table.rs: format_grid_table), with the checks that the Rust has not: the
// checks up to 8; the sizes; 9 and 10; and, from the sizes, drawn size (2), 11, 12 and the drawing.
#![tactic(auto)]

pub mod board;
pub mod columns;
pub mod draw;
pub mod lettering;
pub mod lines;
pub mod output;
pub mod plan;
pub mod split;

ghost use Rattle.std.specs.Prelude.{◌≤◌, ◌≡◌, length};
ghost use Rattle.grid.specs.LayoutCall.{slot_space, rect_space};
ghost use Rattle.representation.specs.TableIn.{table_in, Tabled};
ghost use Rattle.representation.specs.Lent.{sizes_of, arrays_of};
ghost use Rattle.drawing.specs.RedrawCall.{redraw_spaces, redraw_space_short, drawing_lent, redraw_answer, redraw_afterwards};
ghost use Rattle.cm.specs.Late.{answer_of, canvas_sizes, canvas_arrays};

use crate::draw::{DrawingSizes, draw_sized};
use crate::lettering::Lettering;
use crate::plan::Plan;
use alignment::{corners_on, count_sections, misaligned};
use refusals::Refusal;
use representation::lent::Table;
use sizes::measure_table;
use table_checks::check_table;
use text::Column;

const MAX_TABLE_LINES: usize = 16384;

const MAX_CELLS: usize = 1024;

const SLOT_SPACE: usize = 16384;

const RECT_SPACE: usize = 4096;

// 13, of the working space.
pub fn space_short(
    starts: &[u16],
    ends: &[u16],
    firsts: &[u16],
    heights: &[u16],
    wides: &[u16],
    rects: &[u8],
    canvas: &[u16],
) -> bool
    ensures { let space = redraw_spaces starts.now ends.now firsts.now heights.now wides.now
        rects.now canvas.now in
        result ≡ redraw_space_short space }
{
    // Seven tests in one value: of `||` each would be a case of the proof.
    (starts.len() < MAX_TABLE_LINES)
        | (ends.len() < MAX_TABLE_LINES)
        | (firsts.len() < MAX_CELLS)
        | (heights.len() < MAX_CELLS)
        | (wides.len() < MAX_CELLS)
        | (rects.len() < RECT_SPACE)
        | (canvas.len() < SLOT_SPACE)
}

// A table that passed the checks up to 8: its sizes, 9, 10, and the drawing.
fn draw_table(
    origin: Column,
    table: Table<'_>,
    starts: &mut [u16],
    ends: &mut [u16],
    firsts: &mut [u16],
    heights: &mut [u16],
    wides: &mut [u16],
    rects: &mut [u8],
    canvas: &mut [u16],
    out_lengths: &mut [u16],
    out_columns: &mut [u16],
    out_text: &mut [u8],
) -> Result<DrawingSizes, Refusal>
    requires tabled { let t = arrays_of table in
        Tabled origin.0 table.columns table.cells t.columns t.sections t.cells t.lengths t.text }
    requires text_room { (16384 ≤ length starts.old) × (16384 ≤ length ends.old) × (1024 ≤ length firsts.old) × (1024 ≤ length heights.old) }
    requires canvas_room { (1024 ≤ length wides.old) × (rect_space ≤ length rects.old) × (slot_space ≤ length canvas.old) }
    ensures { let lent = arrays_of table.entry in
        let t = table_in table.entry.columns table.entry.cells lent.columns lent.sections lent.cells lent.lengths lent.text in
        let before = drawing_lent out_lengths.old out_columns.old out_text.old in
        let after = drawing_lent out_lengths.new out_columns.new out_text.new in
        (answer_of result ≡ canvas_sizes t origin.0 before) × (after ≡ canvas_arrays t origin.0 before) }
{
    let Table {
        columns,
        cells: n,
        column_entries: cols,
        sections,
        cell_entries: cells,
        lengths,
        text,
        ..
    } = table;
    let offsets = measure_table(
        columns, n, cols, sections, cells, lengths, text, starts, ends, firsts, heights, wides,
    );
    let counts = count_sections(sections);
    let heads = counts.heads;
    let foots = counts.foots;
    if (foots != 0) & (heads == 0) {
        return Err(Refusal::FootWithoutHead);
    }
    let corners = corners_on(cells, n, heads);
    if let Some(column) = misaligned(cols, columns, corners) {
        return Err(Refusal::NoCorner { column });
    }
    let xs = offsets.xs;
    let ys = offsets.ys;
    let marks = corners.marks;
    let lettering = Lettering {
        text,
        starts,
        ends,
        firsts,
        heights,
    };
    let plan = Plan {
        columns,
        rows: sections.len(),
        cells: n,
        heads,
        foots,
        column_entries: cols,
        cell_entries: cells,
        xs,
        ys,
        marks,
    };
    draw_sized(
        origin,
        &plan,
        lettering,
        rects,
        canvas,
        out_lengths,
        out_columns,
        out_text,
    )
}

// The drawing of a table at an origin. Working space: starts and ends of 16,384 entries, firsts,
// heights and wides of 1,024, rects of 4,096, canvas of 16,384.
pub fn redraw(
    origin: usize,
    table: Table<'_>,
    starts: &mut [u16],
    ends: &mut [u16],
    firsts: &mut [u16],
    heights: &mut [u16],
    wides: &mut [u16],
    rects: &mut [u8],
    canvas: &mut [u16],
    out_lengths: &mut [u16],
    out_columns: &mut [u16],
    out_text: &mut [u8],
) -> Result<DrawingSizes, Refusal>
    ensures { let space = redraw_spaces starts.old ends.old firsts.old heights.old wides.old
        rects.old canvas.old in
        let sizes = sizes_of table.entry in
        let lent = arrays_of table.entry in
        let before = drawing_lent out_lengths.old out_columns.old out_text.old in
        let after = drawing_lent out_lengths.new out_columns.new out_text.new in
        (answer_of result ≡ redraw_answer space origin sizes lent before) × (after ≡ redraw_afterwards space origin sizes lent before) }
{
    if space_short(starts, ends, firsts, heights, wides, rects, canvas) {
        return Err(Refusal::Contradiction);
    }
    check_table(origin, table)?;
    draw_table(
        Column(origin),
        table,
        starts,
        ends,
        firsts,
        heights,
        wides,
        rects,
        canvas,
        out_lengths,
        out_columns,
        out_text,
    )
}
