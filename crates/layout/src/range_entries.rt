// The entries of ranges, one range for each inner line of each cell.
ghost use Rattle.std.specs.Prelude.{ℕ, ◌+◌, ◌*◌, ◌-◌, ◌≤◌, ◌<◌, ◌≡◌, length, take, drop};
ghost use mathlib.Core.List.{◌++◌, Memᴰ};
ghost use Rattle.grid.specs.Answer.{over};
ghost use Rattle.grid.specs.Values.{Rect as DrawnRect};
ghost use Rattle.grid.specs.Layout.{inner_count};
ghost use Rattle.grid.specs.LayoutCall.{slot_space};
ghost use Rattle.representation.specs.Arrays.{code_at};
ghost use Rattle.representation.specs.Lent.{rect_of};
ghost use Rattle.representation.specs.LayoutEntries.{range_entries, all_ranges, Inside};
ghost use Rattle.representation.specs.Traced.{rects_held};

use representation::rect::Rect;
use representation::rects::Rects;
use slots::map::byte_at;

// The ranges of a cell on its inner lines, from entry `at` on: the entry after them.
pub fn write_ranges_of(offsets: &[u16], rect: Rect, at: usize, out: &mut [u16]) -> usize
    requires down { (rect.top < rect.bottom) × (rect.bottom < 128) }
    requires across { (rect.left.0 < 128) × (rect.right.0 < 128) }
    requires offset_room { slot_space ≤ length offsets.now }
    requires room { at + 2 * (rect.bottom - rect.top - 1) ≤ length out.old }
    requires low_bytes { (y : ℕ) → rect.top < y → y < rect.bottom → code_at offsets.now y rect.left.0 < 512 }
    ensures end { result ≡ at + 2 * (rect.bottom - rect.top - 1) }
    ensures written { out.new ≡ take at out.old ++ range_entries offsets.now (rect_of rect) ++ drop result out.old }
{
    let mut end = at;
    for y in rect.top + 1..rect.bottom {
        out[end] = byte_at(offsets, y, rect.left).0 as u16 + 1;
        out[end + 1] = byte_at(offsets, y, rect.right).0 as u16;
        end += 2;
    }
    end
}

// The ranges of all cells.
pub fn write_ranges(rects: Rects, offsets: &[u16], out: &mut [u16])
    requires inside { (r : DrawnRect) → Memᴰ r (rects_held rects) → Inside 128 128 r }
    requires offset_room { slot_space ≤ length offsets.now }
    requires low_bytes { let rs = rects_held rects in
        ((r : DrawnRect) → Memᴰ r rs → (y : ℕ) → r.top < y → y < r.bottom → code_at offsets.now y r.left < 512) }
    requires room { length (all_ranges offsets.now (rects_held rects)) ≤ length out.old }
    ensures { out.new ≡ over (all_ranges offsets.now (rects_held rects.entry)) out.old }
{
    let mut end = 0;
    for k in 0..rects.count {
        end = write_ranges_of(offsets, rects.at(k), end, out);
    }
}

// How many ranges the cells have.
pub fn count_ranges(rects: Rects) -> usize
    requires { (r : DrawnRect) → Memᴰ r (rects_held rects) → Inside 128 128 r }
    ensures { result ≡ inner_count (rects_held rects.entry) }
{
    let mut count = 0;
    for k in 0..rects.count {
        let rect = rects.at(k);
        count += rect.bottom - rect.top - 1;
    }
    count
}
