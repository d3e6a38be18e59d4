// What the program `redraw` prints for what it reads, as one function on bytes.
#![tactic(auto)]

pub mod lines;
pub mod print;

ghost use Rattle.std.specs.Prelude.{◌≤◌, length};
ghost use Rattle.drawing.specs.Listing.{redraw_listing};
ghost use Rattle.printing.specs.Printing.{Prints};

use crate::lines::redraw_lines;
use input_lines::{Lines, split_lines};
use printing::refused;

// Writes the redrawing of `input` at the start of `out` and counts the bytes.
pub fn print_redrawing(input: &[u8], out: &mut [u8]) -> usize
    requires { 131072 ≤ length out.old }
    ensures { Prints out.new result (redraw_listing input.now) }
{
    let mut lengths = [0u16; 128];
    let mut text = [0u8; 32768];
    match split_lines(input, &mut lengths, &mut text) {
        Err(refusal) => refused(refusal.number(), refusal.place(), out),
        Ok(Lines { lines, bytes }) => redraw_lines(&lengths[0..lines], &text[0..bytes], out),
    }
}
