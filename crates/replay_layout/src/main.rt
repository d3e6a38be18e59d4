// Answers cases on standard input with the layout call, a line for a line. The stored answers come from the Rust.
//
//     LINES BYTES LENGTHS COLUMNS TEXT SPACES
//
// The drawing's sizes, line lengths, line columns and text, and the lengths of the working space and of the output arrays: glyphs,
// offsets, down, right, rects, columns, rows, cells, ranges; `-` for those that the call names and the largest results. Fields are
// parted by single spaces, numbers of a list by commas; `-` is an empty list. Text is pairs of hexadecimal digits in lower case;
// `r`, four digits and a pair stand for that byte so many times.
//
// An answer is `refused`, number and place; or `accepted`, width, columns, rows, cells, ranges and all entries of the four arrays.
#![tactic(auto)]

use layout::{LayoutSizes, layout};
use refusals::Refusal;
use replaying::{answer_drawing, answer_lines, numbers_field, print, print_entries, space};
use representation::lent::Drawing;
use std::io;

fn print_answer(
    rt: &impl Print,
    answer: Result<LayoutSizes, Refusal>,
    cols: &[u16],
    rows: &[u16],
    cells: &[u16],
    ranges: &[u16],
) -> io::Result<()> {
    match answer {
        Err(refusal) => rt.print(refusal)?,
        Ok(sizes) => {
            rt.write_all(b"accepted")?;
            print(rt, sizes.width.0)?;
            print(rt, sizes.columns)?;
            print(rt, sizes.rows)?;
            print(rt, sizes.cells)?;
            print(rt, sizes.ranges)?;
            print_entries(rt, cols, 2 * sizes.columns.min(127))?;
            print_entries(rt, rows, 3 * sizes.rows.min(127))?;
            print_entries(rt, cells, 5 * sizes.cells.min(1024))?;
            print_entries(rt, ranges, 2 * sizes.ranges.min(16384))?;
        }
    }
    rt.write_all(b"\n")
}

// The output arrays hold the largest results.
fn answer(rt: &impl Print, drawing: Drawing<'_>, spaces: &[u16]) -> io::Result<()> {
    let mut glyphs = [0u8; 16384];
    let mut offsets = [0u16; 16384];
    let mut down = [0u8; 16384];
    let mut right = [0u8; 16384];
    let mut rects = [0u8; 4096];
    let mut cols = [0u16; 254];
    let mut rows = [0u16; 381];
    let mut cells = [0u16; 5120];
    let mut ranges = [0u16; 32768];
    let answer = layout(
        drawing,
        &mut glyphs[0..space(spaces, 0, 16384)],
        &mut offsets[0..space(spaces, 1, 16384)],
        &mut down[0..space(spaces, 2, 16384)],
        &mut right[0..space(spaces, 3, 16384)],
        &mut rects[0..space(spaces, 4, 4096)],
        &mut cols[0..space(spaces, 5, 254)],
        &mut rows[0..space(spaces, 6, 381)],
        &mut cells[0..space(spaces, 7, 5120)],
        &mut ranges[0..space(spaces, 8, 32768)],
    );
    print_answer(rt, answer, &cols, &rows, &cells, &ranges)
}

fn answer_line(rt: &impl Print, line: &[u8]) -> io::Result<()> {
    let mut spaces = [0u16; 9];
    let n = numbers_field(line, 5, &mut spaces);
    let spaces = &spaces[..n];
    answer_drawing(line, 0, |drawing| answer(rt, drawing, spaces))
}

fn main(rt: HostRuntime) -> io::Result<()> {
    answer_lines(&mut rt.stdin(), |line| answer_line(&rt, line))
}
