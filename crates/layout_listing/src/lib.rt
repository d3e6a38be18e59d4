// What the listing program prints for what it reads, as one function on bytes.
#![tactic(auto)]

pub mod lines;
pub mod print;

ghost use Rattle.std.specs.Prelude.{◌≤◌, length};
ghost use Rattle.grid.specs.Listing.{listing};
ghost use Rattle.printing.specs.Printing.{Prints};

use crate::lines::list_lines;
use input_lines::{Lines, split_lines};
use printing::refused;

// Writes the listing of `input` at the start of `out` and counts its bytes. The longest has 110
// bytes for the sizes and for each of 1,024 cells, 48 for each of 127 columns, 69 for each of 127
// rows, a number taken as 20 digits.
pub fn list(input: &[u8], out: &mut [u8]) -> usize
    requires { 131072 ≤ length out.old }
    ensures { Prints out.new result (listing input.now) }
{
    let mut lengths = [0u16; 128];
    let mut text = [0u8; 32768];
    match split_lines(input, &mut lengths, &mut text) {
        Err(refusal) => refused(refusal.number(), refusal.place(), out),
        Ok(Lines { lines, bytes }) => list_lines(&lengths[0..lines], &text[0..bytes], out),
    }
}
