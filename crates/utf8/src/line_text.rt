// Whether a line is UTF-8 of the set.
ghost use Rattle.std.specs.Prelude.{◌<◌, ◌≡◌, length, IfSome};
ghost use Rattle.seq.specs.Lists.{within as within_of};
ghost use Rattle.text.specs.Utf8.{well_formed, plain};
ghost use Rattle.utf8.specs.Common.{Sized};

use crate::{byte_or_zero, continues_at, decode};
use characters::within;
use text::{ByteAt, Character};

// Without a branch, for the loop over all bytes of a line.
fn is_plain_byte(b: u8) -> bool
    ensures { result ≡ within_of 0x20 0x7e b }
{
    (0x20 <= b) & (b <= 0x7e)
}

// Are all characters of a line from 20 to 7E? No byte ends the loop, so that many are tested at a
// time.
pub fn is_plain(line: &[u8]) -> bool
    ensures { result ≡ plain line.now }
{
    let mut all = true;
    for b in line {
        all &= is_plain_byte(*b);
    }
    all
}

// How many bytes the character at a place has, where its first byte says that it is of the set if the
// next ones go on: 20 to 7E, C0 to 17F, 300 to 33F, 5000 to 9FFF.
fn common_size(line: &[u8], at: usize) -> Option<usize>
    requires { at < length line.now }
    ensures { IfSome result (Sized line.now at) }
{
    let a = byte_or_zero(line, at) as u32;
    if within(0x20, 0x7e, a) {
        return Some(1);
    }
    if within(0xc3, 0xc5, a) && continues_at(line, ByteAt(at + 1)) {
        return Some(2);
    }
    if a == 0xcc && continues_at(line, ByteAt(at + 1)) {
        return Some(2);
    }
    if within(0xe5, 0xe9, a)
        && continues_at(line, ByteAt(at + 1))
        && continues_at(line, ByteAt(at + 2))
    {
        return Some(3);
    }
    None
}

// well_formed, character by character; only the less common ones are decoded.
// A while: characters have different sizes.
fn well_decoded(line: &[u8]) -> bool
    ensures { result ≡ well_formed line.now }
{
    let mut at = 0;
    while at < line.len() {
        if let Some(common) = common_size(line, at) {
            at += common;
        } else {
            let Some(Character { size, .. }) = decode(line, ByteAt(at)) else {
                return false;
            };
            at += size;
        }
    }
    true
}

// Is a line UTF-8 throughout, with each of its characters in the set?
pub fn well_formed(line: &[u8]) -> bool
    ensures { result ≡ well_formed line.now }
{
    is_plain(line) || well_decoded(line)
}
