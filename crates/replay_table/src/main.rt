// Answers cases on standard input with the table call, a line for a line. The stored answers come from the Rust.
//
//     LINES BYTES LENGTHS COLUMNS TEXT SPACES
//
// The drawing's sizes, line lengths, line columns and text, and the lengths of the working space and of the output arrays: glyphs,
// offsets, down, right, rects, starts, counts, columns, sections, cells, lengths, text; `-` for those that the call names and the
// largest results. Fields are parted by single spaces, numbers of a list by commas; `-` is an empty list. Text is pairs of hexadecimal digits in lower case;
// `r`, four digits and a pair stand for that byte so many times.
//
// An answer is `refused`, number and place; or `accepted`, columns, rows, cells, lines, bytes and all entries of the five arrays.
#![tactic(auto)]

use refusals::Refusal;
use replaying::{answer_drawing, answer_lines, numbers_field, print, print_entries, space};
use representation::lent::Drawing;
use std::io;
use table::TableSizes;

fn print_answer(
    rt: &impl Print,
    answer: Result<TableSizes, Refusal>,
    cols: &[u16],
    sections: &[u8],
    cells: &[u16],
    lengths: &[u16],
    text: &[u8],
) -> io::Result<()> {
    match answer {
        Err(refusal) => rt.print(refusal)?,
        Ok(sizes) => {
            rt.write_all(b"accepted")?;
            print(rt, sizes.columns)?;
            print(rt, sizes.rows)?;
            print(rt, sizes.cells)?;
            print(rt, sizes.lines)?;
            print(rt, sizes.bytes)?;
            print_entries(rt, cols, 2 * sizes.columns.min(127))?;
            print_entries(rt, sections, sizes.rows)?;
            print_entries(rt, cells, 5 * sizes.cells.min(1024))?;
            print_entries(rt, lengths, sizes.lines)?;
            print_entries(rt, text, sizes.bytes)?;
        }
    }
    rt.write_all(b"\n")
}

// The output arrays hold the largest results.
fn answer(rt: &impl Print, drawing: Drawing<'_>, spaces: &[u16]) -> io::Result<()> {
    let mut glyphs = [0u8; 16384];
    let mut offsets = [0u16; 16384];
    let mut down = [0u8; 16384];
    let mut right = [0u8; 16384];
    let mut rects = [0u8; 4096];
    let mut starts = [0u16; 128];
    let mut counts = [0u8; 1024];
    let mut cols = [0u16; 254];
    let mut sections = [0u8; 127];
    let mut cells = [0u16; 5120];
    let mut lengths = [0u16; 16384];
    let mut text = [0u8; 32768];
    let answer = table::table(
        drawing,
        &mut glyphs[0..space(spaces, 0, 16384)],
        &mut offsets[0..space(spaces, 1, 16384)],
        &mut down[0..space(spaces, 2, 16384)],
        &mut right[0..space(spaces, 3, 16384)],
        &mut rects[0..space(spaces, 4, 4096)],
        &mut starts[0..space(spaces, 5, 128)],
        &mut counts[0..space(spaces, 6, 1024)],
        &mut cols[0..space(spaces, 7, 254)],
        &mut sections[0..space(spaces, 8, 127)],
        &mut cells[0..space(spaces, 9, 5120)],
        &mut lengths[0..space(spaces, 10, 16384)],
        &mut text[0..space(spaces, 11, 32768)],
    );
    print_answer(rt, answer, &cols, &sections, &cells, &lengths, &text)
}

fn answer_line(rt: &impl Print, line: &[u8]) -> io::Result<()> {
    let mut spaces = [0u16; 12];
    let n = numbers_field(line, 5, &mut spaces);
    let spaces = &spaces[..n];
    answer_drawing(line, 0, |drawing| answer(rt, drawing, spaces))
}

fn main(rt: HostRuntime) -> io::Result<()> {
    answer_lines(&mut rt.stdin(), |line| answer_line(&rt, line))
}
