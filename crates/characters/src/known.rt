// The same answers where something of the character is known already: its number of bytes, or that it
// is of the set.
ghost use Rattle.std.specs.Prelude.{◌<◌, ◌≡◌, true, ◌&&◌, leb};
ghost use Rattle.text.specs.Characters.{in_set, span as span_of};

use crate::{TAB, tab_columns, takes_two, within};
use text::Column;

// in_set, for a character that two bytes hold and one does not.
pub fn in_set_of_two(c: u32) -> bool
    requires { c < 0x3041 }
    ensures { result ≡ (leb 0x80 c && in_set c) }
{
    within(0x300, 0x36f, c) | (within(0xa1, 0xac, c) | within(0xae, 0x17f, c))
}

// in_set, for a character that three bytes hold and two do not.
pub fn in_set_of_three(c: u32) -> bool
    ensures { result ≡ (leb 0x800 c && in_set c) }
{
    takes_two(c)
}

// span, for a character of the set: by the order of its ranges.
pub fn span_in_set(c: u32, at: Column) -> usize
    requires { in_set c ≡ true }
    ensures { result ≡ span_of at.0 c }
{
    if 0x300 <= c {
        if 0x3041 <= c {
            return 2;
        }
        return 0;
    }
    if c == TAB {
        return tab_columns(at);
    }
    1
}
