// What the program `page` prints for what it reads, as one function on bytes.
#![tactic(auto)]

pub mod escape;
pub mod lines;

ghost use Rattle.std.specs.Prelude.{◌≤◌, length};
ghost use Rattle.html.specs.PageListing.{page_listing};
ghost use Rattle.printing.specs.Printing.{Prints};

use crate::lines::page_lines;
use input_lines::{Lines, split_lines};
use printing::refused;

// Writes the page of `input` at the start of `out` and counts the bytes. The longest has 32,768
// inner bytes, and 87 more for each of 1,024 cells, 28 for each of 127 rows and 47 for each of 127
// columns, a number taken as 20 digits.
pub fn print_page(widths: bool, input: &[u8], out: &mut [u8]) -> usize
    requires { 196608 ≤ length out.old }
    ensures { Prints out.new result (page_listing widths input.now) }
{
    let mut lengths = [0u16; 128];
    let mut text = [0u8; 32768];
    match split_lines(input, &mut lengths, &mut text) {
        Err(refusal) => refused(refusal.number(), refusal.place(), out),
        Ok(Lines { lines, bytes }) => page_lines(widths, &lengths[0..lines], &text[0..bytes], out),
    }
}
