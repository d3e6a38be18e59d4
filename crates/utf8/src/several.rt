// Characters of several bytes at a place of a line.
ghost use Rattle.std.specs.Prelude.{◌≤◌, ◌<◌, ◌≡◌, true, length, get_or};
ghost use Rattle.utf8.specs.Several.{Whole, MarkAt};

use crate::{byte_or_zero, from_three, from_two, is_continuation};
use characters::within;
use text::ByteAt;

// Is the character at a place a mark, 300 to 36F? It is not put together: where the second byte goes on with a
// character, 64 times the first byte and the second then add up to 3380 to 33EF.
pub fn is_mark(line: &[u8], at: ByteAt) -> bool
    requires { at.0 < length line.now }
    ensures { result ≡ true → MarkAt line.now at.0 }
{
    let at = at.0;
    let a = byte_or_zero(line, at) as u32;
    let b = byte_or_zero(line, at + 1) as u32;
    is_continuation(b) & within(0x3380, 0x33ef, a * 64 + b)
}

// Is the character at a place, whose first byte is from 80 to DF, one of the set? C0 to 17F and 300 to
// 33F are so whatever their second byte is, and are not put together.
pub fn is_two(line: &[u8], at: ByteAt) -> bool
    requires { (at.0 < length line.now) × (0x80 ≤ get_or line.now at.0 0) × (get_or line.now at.0 0 < 0xe0) }
    ensures { Whole line.now at.0 2 result }
{
    let at = at.0;
    let a = byte_or_zero(line, at) as u32;
    let b = byte_or_zero(line, at + 1) as u32;
    if is_continuation(b) {
        if within(0xc3, 0xc5, a) {
            return true;
        }
        if a == 0xcc {
            return true;
        }
    }
    if a < 0xc0 {
        return false;
    }
    from_two(a, b).is_some()
}

// Is the character at a place, whose first byte is E0 or more, one of the set? 5000 to 9FFF are so
// whatever their later bytes are, and are not put together.
pub fn is_three(line: &[u8], at: ByteAt) -> bool
    requires { (at.0 < length line.now) × (0xe0 ≤ get_or line.now at.0 0) }
    ensures { Whole line.now at.0 3 result }
{
    let at = at.0;
    let a = byte_or_zero(line, at) as u32;
    if 0xf0 <= a {
        return false;
    }
    let b = byte_or_zero(line, at + 1) as u32;
    let c = byte_or_zero(line, at + 2) as u32;
    if within(0xe5, 0xe9, a) {
        if is_continuation(b) & is_continuation(c) {
            return true;
        }
    }
    from_three(a, b, c).is_some()
}
