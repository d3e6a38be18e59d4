// Answers cases on standard input with the redraw call, a line for a line. The stored answers come from the Rust.
//
//     ORIGIN COLUMNS ROWS CELLS LINES BYTES COLS SECTIONS PLACES LENGTHS TEXT SPACES
//
// The drawing's origin; the table's sizes; alignment and declared width of each column, each row's section, the five numbers of each
// cell, line lengths and text; and the lengths of the working space and of the output arrays: starts, ends, firsts, heights, wides,
// rects, canvas, line lengths, line columns, text; `-` for those that the call names and the largest drawing. Fields are parted by
// single spaces, numbers of a list by commas; `-` is an empty list. Sections and text are pairs of hexadecimal digits in lower case;
// `r`, four digits and a pair stand for that byte so many times.
//
// An answer is `refused`, number and place; or `accepted`, lines, bytes, all line lengths, all line columns, and the text as it is.
#![tactic(auto)]

use cm::draw::DrawingSizes;
use refusals::Refusal;
use replaying::{
    answer_lines, number_field, numbers_field, print, print_entries, space, text_field,
};
use representation::lent::Table;
use std::io;

fn print_answer(
    rt: &impl Print,
    answer: Result<DrawingSizes, Refusal>,
    lengths: &[u16],
    columns: &[u16],
    text: &[u8],
) -> io::Result<()> {
    match answer {
        Err(refusal) => rt.print(refusal)?,
        Ok(DrawingSizes { lines, bytes }) => {
            rt.write_all(b"accepted")?;
            print(rt, lines)?;
            print(rt, bytes)?;
            print_entries(rt, lengths, lines)?;
            print_entries(rt, columns, lines)?;
            rt.write_all(b" ")?;
            let end = bytes.min(text.len());
            rt.write_all(&text[..end])?;
        }
    }
    rt.write_all(b"\n")
}

// The output arrays hold the largest results.
fn answer(rt: &impl Print, origin: usize, table: Table<'_>, spaces: &[u16]) -> io::Result<()> {
    let mut starts = [0u16; 16384];
    let mut ends = [0u16; 16384];
    let mut firsts = [0u16; 1024];
    let mut heights = [0u16; 1024];
    let mut wides = [0u16; 1024];
    let mut rects = [0u8; 4096];
    let mut canvas = [0u16; 16384];
    let mut out_lengths = [0u16; 128];
    let mut out_columns = [0u16; 128];
    let mut out_text = [0u8; 32768];
    let answer = cm::redraw(
        origin,
        table,
        &mut starts[..space(spaces, 0, 16384)],
        &mut ends[..space(spaces, 1, 16384)],
        &mut firsts[..space(spaces, 2, 1024)],
        &mut heights[..space(spaces, 3, 1024)],
        &mut wides[..space(spaces, 4, 1024)],
        &mut rects[..space(spaces, 5, 4096)],
        &mut canvas[..space(spaces, 6, 16384)],
        &mut out_lengths[..space(spaces, 7, 128)],
        &mut out_columns[..space(spaces, 8, 128)],
        &mut out_text[..space(spaces, 9, 32768)],
    );
    print_answer(rt, answer, &out_lengths, &out_columns, &out_text)
}

fn answer_line(rt: &impl Print, line: &[u8]) -> io::Result<()> {
    let mut cols = [0u16; 512];
    let i = numbers_field(line, 6, &mut cols);
    let mut sections = [0u8; 512];
    let j = text_field(line, 7, &mut sections);
    let mut cells = [0u16; 8192];
    let n = numbers_field(line, 8, &mut cells);
    let mut lengths = [0u16; 20000];
    let m = numbers_field(line, 9, &mut lengths);
    let mut text = [0u8; 40000];
    let k = text_field(line, 10, &mut text);
    let mut spaces = [0u16; 10];
    let s = numbers_field(line, 11, &mut spaces);
    let table = Table {
        columns: number_field(line, 1),
        rows: number_field(line, 2),
        cells: number_field(line, 3),
        lines: number_field(line, 4),
        bytes: number_field(line, 5),
        column_entries: &cols[..i],
        sections: &sections[..j],
        cell_entries: &cells[..n],
        lengths: &lengths[..m],
        text: &text[..k],
    };
    answer(rt, number_field(line, 0), table, &spaces[..s])
}

fn main(rt: HostRuntime) -> io::Result<()> {
    answer_lines(&mut rt.stdin(), |line| answer_line(&rt, line))
}
