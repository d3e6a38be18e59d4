// From given sizes: the drawn size (2), 11, 12, and the drawing.
ghost use Rattle.std.specs.Prelude.{◌+◌, ◌≤◌, ◌<◌, ◌≡◌, false, ◌||◌, cond, length, get_or, take, replicate, eqb, ltb};
ghost use Rattle.seq.specs.Lists.{any};
ghost use Rattle.grid.specs.Answer.{over};
ghost use Rattle.grid.specs.LayoutCall.{slot_space, rect_space};
ghost use Rattle.drawing.specs.Plain.{Canvas, canvas_height};
ghost use Rattle.drawing.specs.RedrawCall.{drawing_lent};
ghost use Rattle.canvas.specs.Picture.{Pictured};
ghost use Rattle.cm.specs.Bears.{Bears, Ready};
ghost use Rattle.cm.specs.Sketch.{rules_at, Sketched, Texted};
ghost use Rattle.cm.specs.Plans.{plan_of};
ghost use Rattle.cm.specs.Late.{answer_of, late_sizes, late_arrays};

use crate::board::Board;
use crate::lettering::Lettering;
use crate::output::{LineSizes, count_lines, write_lines};
use crate::plan::Plan;
use crate::split::first_split;
use canvas::frames::place_cells;
use canvas::{Rules, draw_canvas};
use reading::limits::any_over;
use refusals::Refusal;
use text::Column;

const MAX_LINES: usize = 128;

const MAX_LINE_BYTES: usize = 512;

const MAX_BYTES: usize = 32768;

const MAX_WIDTH: usize = 128;

// How many lines and bytes were written.
#[derive(Clone, Copy, Debug, PartialEq, Eq)]
pub struct DrawingSizes {
    pub lines: usize,
    pub bytes: usize,
}

// A line that is a rule where there are such rows.
fn rule_line(rows: usize, line: usize) -> Option<usize>
    ensures { result ≡ cond (eqb rows 0) None (Some line) }
{
    if rows == 0 { None } else { Some(line) }
}

// The `=` rules: under Head; above Foot and on the last line.
fn rules_of(plan: &Plan<'_>) -> Rules
    ensures { let p = plan_of plan.now in result ≡ rules_at p.heads p.foots p.rows p.ys }
{
    Rules {
        head: rule_line(plan.heads, plan.ys[plan.heads]),
        foot: rule_line(plan.foots, plan.ys[plan.rows - plan.foots]),
        last: rule_line(plan.foots, plan.ys[plan.rows]),
    }
}

// The cells' borders, and the canvas that bears them.
fn draw_frames(plan: &Plan<'_>, rects: &mut [u8], canvas: &mut [u16])
    requires low { (get_or plan.now.xs plan.now.columns 0 < 128) × (get_or plan.now.ys plan.now.rows 0 < 128) }
    requires room { (rect_space ≤ length rects.old) × (slot_space ≤ length canvas.old) }
    ensures { (v : Canvas) → Sketched v (plan_of plan.now) → Pictured v plan.now.cells rects.new canvas.new }
{
    place_cells(plan.cell_entries, plan.cells, plan.xs, plan.ys, rects);
    let rules = rules_of(plan);
    let row = plan.ys[plan.heads];
    draw_canvas(
        rects,
        plan.cells,
        rules,
        plan.column_entries,
        plan.columns,
        plan.xs,
        plan.marks,
        row,
        canvas,
    );
}

// 2, of the drawn lines: one of them, or all together.
fn lines_too_large(sizes: LineSizes, height: usize) -> bool
    requires { (height ≤ 128) × (length sizes.lengths ≡ 128) }
    ensures { result ≡ (any (λ n. ltb 512 n) (take height sizes.lengths) || ltb 32768 sizes.bytes) }
{
    any_over(&sizes.lengths[..height], MAX_LINE_BYTES) || MAX_BYTES < sizes.bytes
}

// The length and the column of each line.
fn write_sizes(
    sizes: LineSizes,
    height: usize,
    origin: Column,
    out_lengths: &mut [u16],
    out_columns: &mut [u16],
)
    requires small { (height ≤ 128) × (length sizes.lengths ≡ 128) × (origin.0 ≤ 255)
        × (any (λ n. ltb 512 n) (take height sizes.lengths) ≡ false) }
    requires room { (height ≤ length out_lengths.old) × (height ≤ length out_columns.old) }
    ensures { (out_lengths.new ≡ over (take height sizes.lengths) out_lengths.old)
        × (out_columns.new ≡ over (replicate height origin.0) out_columns.old) }
{
    for y in 0..height {
        out_lengths[y] = sizes.lengths[y] as u16;
    }
    out_columns[..height].fill(origin.0 as u16);
}

// From a canvas that bears the borders: 2 for the lines' bytes, 11, 12, and the drawing.
fn finish(
    board: &Board<'_>,
    out_lengths: &mut [u16],
    out_columns: &mut [u16],
    out_text: &mut [u8],
) -> Result<DrawingSizes, Refusal>
    requires { Ready board.now }
    ensures { let origin = board.now.origin.0 in
        let before = drawing_lent out_lengths.old out_columns.old out_text.old in
        let after = drawing_lent out_lengths.new out_columns.new out_text.new in
        ((v : Canvas) → Bears board.now v → board.now.height ≡ canvas_height v
        → (answer_of result ≡ late_sizes v origin before) × (after ≡ late_arrays v origin before)) }
{
    let sizes = count_lines(board);
    let lines = board.height;
    if lines_too_large(sizes, lines) {
        return Err(Refusal::TooLarge);
    }
    if let Some(cell) = first_split(board) {
        return Err(Refusal::WouldSplit { cell });
    }
    let bytes = sizes.bytes;
    if (out_lengths.len() < lines) | (out_columns.len() < lines) | (out_text.len() < bytes) {
        return Err(Refusal::OutputShort);
    }
    write_sizes(sizes, lines, board.origin, out_lengths, out_columns);
    write_lines(board, out_text);
    Ok(DrawingSizes { lines, bytes })
}

// From where the borders of columns and rows stand: drawn size (2), 11, 12, and the drawing.
pub fn draw_sized(
    origin: Column,
    plan: &Plan<'_>,
    lettering: Lettering<'_, '_>,
    rects: &mut [u8],
    canvas: &mut [u16],
    out_lengths: &mut [u16],
    out_columns: &mut [u16],
    out_text: &mut [u8],
) -> Result<DrawingSizes, Refusal>
    requires room { (origin.0 ≤ 255) × (rect_space ≤ length rects.old) × (slot_space ≤ length canvas.old) }
    requires sketched { let l = lettering in
        ((v : Canvas) × Sketched v (plan_of plan.now) × Texted v l.text.now l.starts.now l.ends.now l.firsts.now l.heights.now) }
    ensures { let l = lettering.entry in
        let before = drawing_lent out_lengths.old out_columns.old out_text.old in
        let after = drawing_lent out_lengths.new out_columns.new out_text.new in
        ((v : Canvas) → Sketched v (plan_of plan.now)
        → Texted v l.text.now l.starts.now l.ends.now l.firsts.now l.heights.now
        → (answer_of result ≡ late_sizes v origin.0 before) × (after ≡ late_arrays v origin.0 before)) }
{
    let right = plan.xs[plan.columns];
    let bottom = plan.ys[plan.rows];
    if (MAX_WIDTH <= right) | (MAX_LINES <= bottom) {
        return Err(Refusal::TooLarge);
    }
    draw_frames(plan, rects, canvas);
    let board = Board {
        origin,
        width: Column(right + 1),
        height: bottom + 1,
        cells: plan.cells,
        rects,
        canvas,
        lettering,
    };
    finish(&board, out_lengths, out_columns, out_text)
}
