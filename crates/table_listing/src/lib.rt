// What the program `cells` prints for what it reads, as one function on bytes.
#![tactic(auto)]

pub mod lines;
pub mod print;

ghost use Rattle.std.specs.Prelude.{◌≤◌, length};
ghost use Rattle.grid.specs.CellListing.{cell_listing};
ghost use Rattle.printing.specs.Printing.{Prints};

use crate::lines::list_lines;
use input_lines::{Lines, split_lines};
use printing::refused;

// Writes the cells of `input` at the start of `out` and counts the bytes. The longest has 111
// bytes for the sizes, 110 for each of 1,024 cells, a number taken as 20 digits, 3 for each of
// 16,384 lines and 32,768 of text.
pub fn list_cells(input: &[u8], out: &mut [u8]) -> usize
    requires { 196608 ≤ length out.old }
    ensures { Prints out.new result (cell_listing input.now) }
{
    let mut lengths = [0u16; 128];
    let mut text = [0u8; 32768];
    match split_lines(input, &mut lengths, &mut text) {
        Err(refusal) => refused(refusal.number(), refusal.place(), out),
        Ok(Lines { lines, bytes }) => list_lines(&lengths[0..lines], &text[0..bytes], out),
    }
}
