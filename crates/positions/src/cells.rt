// The positions of cells, from their rectangles.
ghost use Rattle.std.specs.Prelude.{◌≤◌, length};
ghost use Rattle.grid.specs.LayoutCall.{slot_space};

use crate::lines::NumberedLines;
use crate::span::Sourcepos;
use representation::rect::Rect;
use representation::rects::Rects;
use slots::map::byte_at;
use text::ByteAt;

// Lines with their numbers and table bytes, and the byte of each of their slots.
#[derive(Clone, Copy)]
pub struct PlacedSlots<'a, 'l> {
    pub lines: NumberedLines<'l>,
    pub offsets: &'a [u16],
    pub ghost room: { slot_space ≤ length offsets.now },
}

impl PlacedSlots<'_, '_> {
    ghost use Rattle.std.specs.Prelude.{◌*◌, ◌≡◌};
    ghost use mathlib.Core.List.{List, Memᴰ};
    ghost use Rattle.grid.specs.Answer.{over};
    ghost use Rattle.grid.specs.Values as grid;
    ghost use Rattle.representation.specs.Lent.{rect_of};
    ghost use Rattle.representation.specs.LayoutEntries.{Inside};
    ghost use Rattle.representation.specs.Traced.{rects_held};
    ghost use Rattle.positions.specs.Spans.{sourcepos_of, rect_span, rect_spans};
    ghost use Rattle.positions.specs.Lent.{placed_by};

    // The cell inside a rectangle.
    pub fn position(&self, rect: Rect) -> Sourcepos
        requires { Inside (length self.now.lines.numbers.now) 128 (rect_of rect) }
        ensures { (lines : List grid.Line) → sourcepos_of result ≡ rect_span (placed_by self.now.lines lines) self.now.offsets.now (rect_of rect) }
    {
        let first = rect.top + 1;
        if rect.bottom <= first {
            return self.lines.no_lines(rect.top);
        }
        let last = rect.bottom - 1;
        let start = byte_at(self.offsets, first, rect.left).0 + 1;
        let end = byte_at(self.offsets, last, rect.right);
        Sourcepos {
            start_line: self.lines.numbers[first],
            start_column: self.lines.source_byte(first, ByteAt(start)) + 1,
            end_line: self.lines.numbers[last],
            end_column: self.lines.source_byte(last, end),
        }
    }

    // The positions of all cells.
    pub fn write_cells(&self, rects: Rects<'_>, out: &mut [u32])
        requires inside { (r : grid.Rect) → Memᴰ r (rects_held rects) → Inside (length self.now.lines.numbers.now) 128 r }
        requires room { 4 * rects.count ≤ length out.old }
        ensures { let rs = rects_held rects.entry in
            ((lines : List grid.Line) → out.new ≡ over (rect_spans (placed_by self.now.lines lines) self.now.offsets.now rs) out.old) }
    {
        for k in 0..rects.count {
            self.position(rects.at(k)).write(4 * k, out);
        }
    }
}
