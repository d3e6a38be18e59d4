// The cases of positions.
use positions::PositionsFound;
use positions::span::Sourcepos;
use refusals::Refusal;
use replaying::{
    answer_drawing, number_field, numbers_field, print, print_list, space, words_field,
};
use representation::lent::Drawing;
use std::io;

fn print_accepted(rt: &impl Print, position: Sourcepos) -> io::Result<()> {
    rt.write_all(b"accepted")?;
    print(rt, position.start_line)?;
    print(rt, position.start_column)?;
    print(rt, position.end_line)?;
    print(rt, position.end_column)
}

fn print_positions(
    rt: &impl Print,
    answer: Result<PositionsFound, Refusal>,
    rows: &[u32],
    cells: &[u32],
) -> io::Result<()> {
    match answer {
        Err(refusal) => rt.print(refusal),
        Ok(found) => {
            print_accepted(rt, found.table)?;
            let row_numbers = (4 * found.rows.min(127)).min(rows.len());
            print_list(rt, &rows[0..row_numbers])?;
            let cell_numbers = (4 * found.cells.min(1024)).min(cells.len());
            print_list(rt, &cells[0..cell_numbers])
        }
    }
}

// The output arrays hold the largest results.
fn answer_positions(
    rt: &impl Print,
    drawing: Drawing<'_>,
    numbers: &[u32],
    table_bytes: &[u32],
    spaces: &[u16],
) -> io::Result<()> {
    let mut glyphs = [0u8; 16384];
    let mut offsets = [0u16; 16384];
    let mut down = [0u8; 16384];
    let mut right = [0u8; 16384];
    let mut rects = [0u8; 4096];
    let mut starts = [0u16; 128];
    let mut rows = [0u32; 508];
    let mut cells = [0u32; 4096];
    let answer = positions::positions(
        drawing,
        numbers,
        table_bytes,
        &mut glyphs[0..space(spaces, 0, 16384)],
        &mut offsets[0..space(spaces, 1, 16384)],
        &mut down[0..space(spaces, 2, 16384)],
        &mut right[0..space(spaces, 3, 16384)],
        &mut rects[0..space(spaces, 4, 4096)],
        &mut starts[0..space(spaces, 5, 128)],
        &mut rows[0..space(spaces, 6, 508)],
        &mut cells[0..space(spaces, 7, 4096)],
    );
    print_positions(rt, answer, &rows, &cells)
}

fn print_position(rt: &impl Print, answer: Result<Sourcepos, Refusal>) -> io::Result<()> {
    match answer {
        Err(refusal) => rt.print(refusal),
        Ok(position) => print_accepted(rt, position),
    }
}

fn answer_cell(
    rt: &impl Print,
    case: &[u8],
    drawing: Drawing<'_>,
    numbers: &[u32],
    table_bytes: &[u32],
    spaces: &[u16],
) -> io::Result<()> {
    let mut glyphs = [0u8; 16384];
    let mut offsets = [0u16; 16384];
    let mut down = [0u8; 16384];
    let mut right = [0u8; 16384];
    let mut rects = [0u8; 4096];
    let mut starts = [0u16; 128];
    let answer = positions::cell_position(
        drawing,
        numbers,
        table_bytes,
        &mut glyphs[0..space(spaces, 0, 16384)],
        &mut offsets[0..space(spaces, 1, 16384)],
        &mut down[0..space(spaces, 2, 16384)],
        &mut right[0..space(spaces, 3, 16384)],
        &mut rects[0..space(spaces, 4, 4096)],
        &mut starts[0..space(spaces, 5, 128)],
        number_field(case, 9),
    );
    print_position(rt, answer)
}

// The positions of all, or of one cell.
pub fn answer_placed(rt: &impl Print, case: &[u8], one: bool) -> io::Result<()> {
    let mut numbers = [0u32; 256];
    let m = words_field(case, 6, &mut numbers);
    let mut table_bytes = [0u32; 256];
    let n = words_field(case, 7, &mut table_bytes);
    let mut spaces = [0u16; 8];
    let s = numbers_field(case, 8, &mut spaces);
    let (numbers, table_bytes, spaces) = (&numbers[..m], &table_bytes[..n], &spaces[..s]);
    answer_drawing(case, 1, |drawing| {
        if one {
            answer_cell(rt, case, drawing, numbers, table_bytes, spaces)
        } else {
            answer_positions(rt, drawing, numbers, table_bytes, spaces)
        }
    })
}
