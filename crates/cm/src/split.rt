// Refusal 11: a cell that would be read as two, since a column inside it shows `|` or `+` on every line
// between a `+` above and one below.
ghost use Rattle.std.specs.Prelude.{◌+◌, ◌-◌, ◌*◌, ◌≤◌, ◌<◌, ◌≡◌, true, false, ◌&&◌, cond, List, length, eqb};
ghost use Rattle.text.specs.Columns.{columns_from};
ghost use Rattle.text.specs.Utf8.{char_indices, well_formed};
ghost use Rattle.grid.specs.Slots.{grid_of, vertical, glyph_of};
ghost use Rattle.grid.specs.LayoutCall.{slot_space};
ghost use Rattle.reading.specs.Checks.{place_of};
ghost use Rattle.drawing.specs.Plain.{Box, Canvas, canvas_lines};
ghost use Rattle.drawing.specs.Redraw.{splits as splits_in, split_cell};
ghost use Rattle.representation.specs.Arrays.{rect_in};
ghost use Rattle.representation.specs.Lent.{rect_of};
ghost use Rattle.cm.specs.Board.{lines_at};
ghost use Rattle.cm.specs.Bears.{LettersOf, Bears};
ghost use Rattle.cm.specs.Hits.{Hit, Hittable, HitLines, split_column};

use crate::board::Board;
use crate::lettering::Lettering;
use characters::known::span_in_set;
use representation::STRIDE;
use representation::rect::Rect;
use text::{ByteAt, Character, Column};
use utf8::known::known_character;

const PLUS: u16 = 0x2b;

// For each column, how many lines from the first on show `|` or `+` there.
#[derive(Clone, Copy)]
pub struct Hits {
    pub lines: [u8; 128],
}

fn is_vertical(value: u32) -> bool
    ensures { result ≡ vertical (glyph_of false value) }
{
    (value == 0x2b) | (value == 0x7c)
}

// One more line where the column has shown all before and shows this one.
fn counted(shown: bool, lines: u8, i: u8) -> u8
    requires { i < 255 }
    ensures { result ≡ cond (shown && eqb lines i) (i + 1) lines }
{
    if shown & (lines == i) { i + 1 } else { lines }
}

// The text of line i, from column `from` of the canvas on.
fn hit_line(line: &[u8], column: Column, from: Column, i: u8, hits: Hits) -> Hits
    requires column_bound { (column.0 ≤ 1024) × (length line.now ≤ 512) × (well_formed line.now ≡ true) × (i < 255) × (length hits.lines ≡ 128) }
    requires line_bound { from.0 + columns_from column.0 (char_indices line.now) < 128 }
    ensures { Hit column.0 line.now from.0 i hits.lines result.lines }
{
    let mut lines = hits.lines;
    let first = column.0;
    let mut byte = 0;
    let mut n = 0;
    // A while: characters have different sizes.
    while byte < line.len() {
        let Character { value, size } = known_character(line, ByteAt(byte));
        lines[from.0 + n] = counted(is_vertical(value), lines[from.0 + n], i);
        n += span_in_set(value, Column(first + n));
        byte += size;
    }
    Hits { lines }
}

// The first `count` lines of cell k, whose text starts at column `from` of the canvas.
fn hit_lines(
    column: Column,
    from: Column,
    count: usize,
    lettering: Lettering<'_, '_>,
    k: usize,
) -> Hits
    requires near { (column.0 ≤ 1024) × (count < 128) }
    requires lettered { (bs : List Box) × LettersOf lettering bs × (k < length bs) × Hittable column.0 from.0 (lines_at bs k) }
    ensures { (bs : List Box) → LettersOf lettering.entry bs → k < length bs → HitLines column.0 (lines_at bs k) from.0 count result.lines }
{
    let mut hits = Hits { lines: [0; 128] };
    for i in 0..count {
        let line = lettering.line(k, i);
        hits = hit_line(line, column, from, i as u8, hits);
    }
    hits
}

// Is there a column inside with a `+` above and below that has shown this many lines?
fn split_column(canvas: &[u16], rect: Rect, lines: usize, hits: Hits) -> bool
    requires low { (rect.top < 128) × (rect.bottom < 128) × (rect.left.0 < rect.right.0) × (rect.right.0 < 128) }
    requires room { (slot_space ≤ length canvas.now) × (length hits.lines ≡ 128) }
    ensures { result ≡ split_column canvas.now (rect_of rect) lines hits.lines }
{
    for x in rect.left.0 + 1..rect.right.0 {
        let above = canvas[rect.top * STRIDE + x];
        let below = canvas[rect.bottom * STRIDE + x];
        if (above == PLUS) & (below == PLUS) & (hits.lines[x] as usize == lines) {
            return true;
        }
    }
    false
}

// Would cell k be read as two? Its lines are looked at only where a `+` above and one below meet.
fn splits(board: &Board<'_>, k: usize) -> bool
    requires ready { (v : Canvas) × Bears board.now v }
    requires cell { k < board.now.cells }
    ensures { (v : Canvas) → Bears board.now v
        → result ≡ splits_in (grid_of (canvas_lines board.now.origin.0 v)) (rect_in board.now.rects.now k) }
{
    let rect = Rect::at(board.rects, k);
    let lettering = board.lettering;
    let lines = rect.bottom - rect.top - 1;
    if (lettering.heights[k] as usize) < lines {
        return false;
    }
    let none = Hits { lines: [0; 128] };
    if !split_column(board.canvas, rect, 0, none) {
        return false;
    }
    let from = Column(rect.left.0 + 2);
    let column = Column(board.origin.0 + rect.left.0 + 2);
    let hits = hit_lines(column, from, lines, lettering, k);
    split_column(board.canvas, rect, lines, hits)
}

// The first cell that would be read as two.
pub fn first_split(board: &Board<'_>) -> Option<usize>
    requires { (v : Canvas) × Bears board.now v }
    ensures { (v : Canvas) → Bears board.now v → place_of result ≡ split_cell v (grid_of (canvas_lines board.now.origin.0 v)) }
{
    for k in 0..board.cells {
        if splits(board, k) {
            return Some(k);
        }
    }
    None
}
