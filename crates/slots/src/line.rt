// The slots of one line: those of a plain line are its bytes, those of any other were left by scanning.
ghost use Rattle.std.specs.Prelude.{ℕ, ◌+◌, ◌≤◌, ◌≡◌, Bool, true, ◌||◌, eqb, length};
ghost use Rattle.text.specs.Utf8.{char_indices, plain};
ghost use Rattle.grid.specs.Slots.{slots_from};
ghost use Rattle.slots.specs.Line.{FilledLine};

use crate::glyphs::fill_plain;
use crate::scan::PLAIN;
use text::Column;

// The columns of a plain line, as every rule is: it has a slot for each byte. No other function makes a
// column of a number of bytes.
pub fn plain_width(line: &[u8]) -> Column
    requires { plain line.now ≡ true }
    ensures bytes { result.0 ≡ length line.now }
    ensures slots { (rule : Bool) (column : ℕ) → result.0 ≡ length (slots_from rule column (char_indices line.now)) }
{
    Column(line.len())
}

// Do the slots of a trimmed line fill the width? They are written from index `at` on, unless scanning
// left them there.
pub fn fill_line(
    line: &[u8],
    rule: bool,
    count: u8,
    at: usize,
    width: Column,
    glyphs: &mut [u8],
    offsets: &mut [u16],
) -> bool
    requires line_len_bound { (length line.now ≤ 512) × (rule || eqb count 255 ≡ true → plain line.now ≡ true) × (width.0 ≤ 128) }
    requires width_in_bounds { (at + width.0 ≤ length glyphs.old) × (at + width.0 ≤ length offsets.old) }
    ensures { FilledLine line.now rule count at width.0
        glyphs.old offsets.old glyphs.new offsets.new result }
{
    if rule || count == PLAIN {
        let columns = plain_width(line);
        if columns.0 != width.0 {
            return false;
        }
        fill_plain(line, rule, at, glyphs, offsets);
        return true;
    }
    count as usize == width.0
}
