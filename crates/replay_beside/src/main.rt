// Answers cases on standard input with the calls beside the round trip, a line for a line. The stored answers come from the Rust.
//
//     p LINES BYTES LENGTHS COLUMNS TEXT NUMBERS TABLE-BYTES SPACES         the positions of a drawing's table, rows and cells
//     c LINES BYTES LENGTHS COLUMNS TEXT NUMBERS TABLE-BYTES SPACES CELL    the position of one cell
//     a LINE START EOL COUNT LINES STARTS EOLS                              an end added to a register
//     f LINE COLUMN COUNT LINES STARTS EOLS                                 the end found in a register
//     m LINE START EOL COUNT LINES BYTES                                    an end moved onto its fragment
//     s WIDTH TOTAL                                                         a column's share
//     g WIDTHS COLUMNS ROWS CELLS BYTES COLS SECTIONS PLACES INNER SPACE    the page of a table
//
// Fields are parted by single spaces, numbers of a list by commas; `7x5` is five times 7, and `-` an empty list. Text, sections and
// inner bytes are pairs of hexadecimal digits in lower case; `r`, four digits and a pair stand for that byte so many times. SPACES
// are the lengths of the working space and of the output arrays: glyphs, offsets, down, right, rects, starts, rows, cells; `-` for
// those that the call names and the largest results. WIDTHS is 1 or 0, SPACE the length of the page's output.
//
// A refusal is `refused`, number and place. After an answer to `a` the three arrays follow as they then are. Accepted are:
//
//     p    `accepted`, the table's four numbers, those of all rows and those of all cells
//     c    `accepted` and the cell's four numbers
//     a    `accepted` and the count
//     f    `found` and the eol, or `none`
//     m    `accepted`, line, start and eol
//     s    the hundredths, and the bits of the f64 in hexadecimal
//     g    `accepted`, the page's length and its bytes, a backslash and all that is no printable ASCII as `\` and two digits
#![tactic(auto)]

mod ends;
mod pages;
mod places;

use crate::ends::{answer_add, answer_find, answer_remap};
use crate::pages::{answer_page, answer_share};
use crate::places::answer_placed;
use replaying::answer_lines;
use std::io;

fn answer_case(rt: &impl Print, case: &[u8]) -> io::Result<()> {
    let Some(kind) = case.first() else {
        return Ok(());
    };
    match *kind {
        b'p' => answer_placed(rt, case, false)?,
        b'c' => answer_placed(rt, case, true)?,
        b'a' => answer_add(rt, case)?,
        b'f' => answer_find(rt, case)?,
        b'm' => answer_remap(rt, case)?,
        b's' => answer_share(rt, case)?,
        b'g' => answer_page(rt, case)?,
        _ => {}
    }
    rt.write_all(b"\n")
}

fn main(rt: HostRuntime) -> io::Result<()> {
    answer_lines(&mut rt.stdin(), |line| answer_case(&rt, line))
}
