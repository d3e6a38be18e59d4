// Where something starts and ends.
ghost use Rattle.std.specs.Prelude.{◌+◌, ◌≤◌, ◌≡◌};
ghost use Rattle.grid.specs.Limits.{max_register};

use text::ByteAt;

// The line and column, both from 1, of the first byte and of the last.
#[derive(Clone, Copy, Debug, PartialEq, Eq)]
pub struct Sourcepos {
    pub start_line: u32,
    pub start_column: u32,
    pub end_line: u32,
    pub end_column: u32,
}

// A byte of a line as a byte of the source's line, in which the table starts at its table byte.
pub fn source_byte(table_byte: u32, byte: ByteAt) -> u32
    requires { (table_byte ≤ max_register) × (byte.0 ≤ 65536) }
    ensures { (result ≡ table_byte + byte.0) × (result ≤ 131071) }
{
    table_byte + byte.0 as u32
}

impl Sourcepos {
    ghost use Rattle.std.specs.Prelude.{List, ◌++◌, length, take, drop};
    ghost use Rattle.sourcepos.specs.PositionsCall.{four_numbers};
    ghost use Rattle.positions.specs.Spans.{sourcepos_of};

    // Its four numbers, from entry `at` on.
    pub fn write(self, at: usize, out: &mut [u32])
        requires { at + 4 ≤ length out.old }
        ensures { out.new ≡ take at out.old ++ four_numbers (sourcepos_of self) ++ drop (at + 4) out.old }
    {
        out[at..at + 4].copy_from_slice(&[
            self.start_line,
            self.start_column,
            self.end_line,
            self.end_column,
        ]);
    }
}
