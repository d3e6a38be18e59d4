// A character's glyph, and the slots of one character or of a line of plain bytes, written into
// the arrays of slots.
ghost use Rattle.std.specs.Prelude.{◌+◌, ◌≤◌, ◌<◌, ◌≡◌, length, replicate};
ghost use Rattle.seq.specs.Lists.{up_to};
ghost use Rattle.grid.specs.Slots.{glyph_of};
ghost use Rattle.representation.specs.Arrays.{glyph_code};
ghost use Rattle.slots.specs.Glyphs.{glyph_in, IsGlyphCode};
ghost use Rattle.slots.specs.Replaced.{replaced, byte_codes};

use representation::{DASH, OTHER, PIPE, PLUS};
use text::ByteAt;

// What a slot shows.
#[derive(Clone, Copy, Debug, PartialEq, Eq)]
pub enum Glyph {
    Other,
    Dash,
    Pipe,
    Plus,
}

impl Glyph {
    // A rule's characters are dashes but for `+`.
    pub fn of(rule: bool, value: u32) -> Self
        ensures { glyph_in result ≡ glyph_of rule value }
    {
        match value {
            0x2b => Glyph::Plus,
            _ if rule => Glyph::Dash,
            0x2d => Glyph::Dash,
            0x7c => Glyph::Pipe,
            _ => Glyph::Other,
        }
    }
}

impl From<Glyph> for u8 {
    ghost from_gives = { IsGlyphCode };

    fn from(glyph: Glyph) -> u8 {
        match glyph {
            Glyph::Other => OTHER,
            Glyph::Dash => DASH,
            Glyph::Pipe => PIPE,
            Glyph::Plus => PLUS,
        }
    }
}

// Writes count slots of one character from index at on.
pub fn put_slots(
    glyphs: &mut [u8],
    offsets: &mut [u16],
    at: usize,
    count: usize,
    rule: bool,
    value: u32,
    byte: ByteAt,
)
    requires { (at + count ≤ length glyphs.old) × (at + count ≤ length offsets.old) × (byte.0 < 65536) }
    ensures glyphs_after { glyphs.new ≡ replaced glyphs.old at (replicate count (glyph_code (glyph_of rule value))) }
    ensures offsets_after { offsets.new ≡ replaced offsets.old at (replicate count byte.0) }
{
    glyphs[at..at + count].fill(u8::from(Glyph::of(rule, value)));
    offsets[at..at + count].fill(byte.0 as u16);
}

// Writes a slot for each byte of a line from index at on.
pub fn fill_plain(line: &[u8], rule: bool, at: usize, glyphs: &mut [u8], offsets: &mut [u16])
    requires line_len_bound { length line.now ≤ 512 }
    requires line_in_bounds { (at + length line.now ≤ length glyphs.old) × (at + length line.now ≤ length offsets.old) }
    ensures glyphs_after { glyphs.new ≡ replaced glyphs.old at (byte_codes rule line.now) }
    ensures offsets_after { offsets.new ≡ replaced offsets.old at (up_to (length line.now)) }
{
    for (n, b) in line.iter().enumerate() {
        glyphs[at + n] = u8::from(Glyph::of(rule, *b as u32));
        offsets[at + n] = n as u16;
    }
}
