// The characters of a line that is known to be UTF-8 of the set.
ghost use Rattle.std.specs.Prelude.{◌<◌, ◌≡◌, true, length, drop, Some};
ghost use Rattle.text.specs.Utf8.{character, well_formed};

use text::{ByteAt, Character};

// The character at a place of a line that is UTF-8 of the set from there on. Its first byte alone
// is judged, as by Rust's char_indices.
pub fn known_character(line: &[u8], at: ByteAt) -> Character
    requires { (at.0 < length line.now) × (well_formed (drop at.0 line.now) ≡ true) }
    ensures { character (drop at.0 line.now) ≡ Some result }
{
    let at = at.0;
    let a = line[at] as u32;
    if a < 0x80 {
        return Character { value: a, size: 1 };
    }
    let b = line[at + 1] as u32;
    if a < 0xe0 {
        let value = (a - 0xc0) * 64 + (b - 0x80);
        return Character { value, size: 2 };
    }
    let c = line[at + 2] as u32;
    let value = ((a - 0xe0) * 64 + (b - 0x80)) * 64 + (c - 0x80);
    Character { value, size: 3 }
}
