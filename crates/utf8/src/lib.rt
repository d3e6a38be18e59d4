// UTF-8, for the characters of the set: the character at a place of a line.
#![tactic(auto)]

pub mod columns;
pub mod known;
pub mod line_text;
pub mod several;

ghost use Rattle.std.specs.Prelude.{◌≡◌, ◌≤◌, ◌<◌, drop, get_or};
ghost use Rattle.text.specs.Utf8.{character, continues, from_two, from_three};

use characters::known::{in_set_of_three, in_set_of_two};
use characters::{in_set, within};
use text::{ByteAt, Character};

// 0 past the end: it goes on with no character and is none of the set.
fn byte_or_zero(text: &[u8], i: usize) -> u8
    ensures { result ≡ get_or text.now i 0 }
{
    if i < text.len() { text[i] } else { 0 }
}

fn is_continuation(b: u32) -> bool
    ensures { result ≡ continues b }
{
    within(0x80, 0xbf, b)
}

// Does the byte there go on with a character? None does past the end.
pub fn continues_at(text: &[u8], at: ByteAt) -> bool
    ensures { result ≡ continues (get_or text.now at.0 0) }
{
    is_continuation(byte_or_zero(text, at.0) as u32)
}

fn from_two(a: u32, b: u32) -> Option<Character>
    requires { (0xc0 ≤ a) × (a < 256) × (b < 256) }
    ensures { result ≡ from_two a b }
{
    if is_continuation(b) {
        let value = (a - 0xc0) * 64 + (b - 0x80);
        return in_set_of_two(value).then_some(Character { value, size: 2 });
    }
    None
}

fn from_three(a: u32, b: u32, c: u32) -> Option<Character>
    requires { (0xe0 ≤ a) × (a < 256) × (b < 256) × (c < 256) }
    ensures { result ≡ from_three a b c }
{
    if is_continuation(b) & is_continuation(c) {
        let value = ((a - 0xe0) * 64 + (b - 0x80)) * 64 + (c - 0x80);
        return in_set_of_three(value).then_some(Character { value, size: 3 });
    }
    None
}

pub fn decode(text: &[u8], at: ByteAt) -> Option<Character>
    ensures { result ≡ character (drop at.0 text.now) }
{
    let at = at.0;
    if text.len() <= at {
        return None;
    }
    let a = byte_or_zero(text, at) as u32;
    if a < 0x80 {
        return in_set(a).then_some(Character { value: a, size: 1 });
    }
    let b = byte_or_zero(text, at + 1) as u32;
    if within(0xc0, 0xdf, a) {
        return from_two(a, b);
    }
    if within(0xe0, 0xef, a) {
        let c = byte_or_zero(text, at + 2) as u32;
        return from_three(a, b, c);
    }
    None
}
