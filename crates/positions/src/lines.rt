// A drawing's lines with their numbers and the bytes at which the table starts in them.
ghost use Rattle.positions.specs.Needs.{Numbered};

use crate::span::{Sourcepos, source_byte};
use text::ByteAt;

// Each line's number, and the byte at which the table starts in it.
#[derive(Clone, Copy)]
pub struct NumberedLines<'a> {
    pub numbers: &'a [u32],
    pub table_bytes: &'a [u32],
    pub ghost numbered: { Numbered numbers.now table_bytes.now },
}

impl NumberedLines<'_> {
    ghost use Rattle.std.specs.Prelude.{◌+◌, ◌≤◌, ◌<◌, ◌≡◌, List, length, get_or};
    ghost use Rattle.grid.specs.Values.{Line};
    ghost use Rattle.sourcepos.specs.Positions.{no_lines};
    ghost use Rattle.positions.specs.Spans.{sourcepos_of};
    ghost use Rattle.positions.specs.Lent.{placed_by};

    // A byte of line y as a byte of the source's line.
    pub fn source_byte(&self, y: usize, byte: ByteAt) -> u32
        requires { (y < length self.now.numbers.now) × (byte.0 ≤ 65536) }
        ensures { (result ≡ get_or self.now.table_bytes.now y 0 + byte.0) × (result ≤ 131071) }
    {
        source_byte(self.table_bytes[y], byte)
    }

    // What has no inner line: from its top line's table byte + 1 to that byte.
    #[tactic(auto, unfolding(sourcepos::specs::Positions::no_lines))]
    pub fn no_lines(&self, top: usize) -> Sourcepos
        requires { top < length self.now.numbers.now }
        ensures { (lines : List Line) → sourcepos_of result ≡ no_lines (placed_by self.now lines) top }
    {
        Sourcepos {
            start_line: self.numbers[top],
            start_column: self.source_byte(top, ByteAt(1)),
            end_line: self.numbers[top],
            end_column: self.source_byte(top, ByteAt(0)),
        }
    }
}
