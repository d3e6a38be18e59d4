// The cases of line ends.
use line_ends::Register;
use refusals::Refusal;
use replaying::{number_field, print, print_list, word_field, words_field};
use sourcepos::CellLineEnd;
use std::io;

fn end_fields(case: &[u8]) -> CellLineEnd {
    CellLineEnd {
        line: word_field(case, 1),
        start: word_field(case, 2),
        eol: word_field(case, 3),
    }
}

fn print_added(rt: &impl Print, answer: Result<usize, Refusal>) -> io::Result<()> {
    match answer {
        Err(refusal) => rt.print(refusal),
        Ok(count) => {
            rt.write_all(b"accepted")?;
            print(rt, count)
        }
    }
}

// The answer, and the register afterwards.
fn add(
    rt: &impl Print,
    case: &[u8],
    lines: &mut [u32],
    starts: &mut [u32],
    eols: &mut [u32],
) -> io::Result<()> {
    let count = number_field(case, 4);
    print_added(
        rt,
        line_ends::add(count, lines, starts, eols, end_fields(case)),
    )?;
    print_list(rt, lines)?;
    print_list(rt, starts)?;
    print_list(rt, eols)
}

pub fn answer_add(rt: &impl Print, case: &[u8]) -> io::Result<()> {
    let mut lines = [0u32; 2048];
    let i = words_field(case, 5, &mut lines);
    let mut starts = [0u32; 2048];
    let j = words_field(case, 6, &mut starts);
    let mut eols = [0u32; 2048];
    let k = words_field(case, 7, &mut eols);
    add(
        rt,
        case,
        &mut lines[0..i],
        &mut starts[0..j],
        &mut eols[0..k],
    )
}

fn print_found(rt: &impl Print, answer: Result<Option<u32>, Refusal>) -> io::Result<()> {
    match answer {
        Err(refusal) => rt.print(refusal),
        Ok(Some(eol)) => {
            rt.write_all(b"found")?;
            print(rt, eol)
        }
        Ok(None) => rt.write_all(b"none"),
    }
}

pub fn answer_find(rt: &impl Print, case: &[u8]) -> io::Result<()> {
    let mut lines = [0u32; 2048];
    let i = words_field(case, 4, &mut lines);
    let mut starts = [0u32; 2048];
    let j = words_field(case, 5, &mut starts);
    let mut eols = [0u32; 2048];
    let k = words_field(case, 6, &mut eols);
    let register = Register {
        count: number_field(case, 3),
        lines: &lines[0..i],
        starts: &starts[0..j],
        eols: &eols[0..k],
    };
    print_found(
        rt,
        line_ends::find(register, word_field(case, 1), word_field(case, 2)),
    )
}

fn print_remapped(rt: &impl Print, answer: Result<CellLineEnd, Refusal>) -> io::Result<()> {
    match answer {
        Err(refusal) => rt.print(refusal),
        Ok(end) => {
            rt.write_all(b"accepted")?;
            print(rt, end.line)?;
            print(rt, end.start)?;
            print(rt, end.eol)
        }
    }
}

pub fn answer_remap(rt: &impl Print, case: &[u8]) -> io::Result<()> {
    let mut lines = [0u32; 2048];
    let i = words_field(case, 5, &mut lines);
    let mut bytes = [0u32; 2048];
    let j = words_field(case, 6, &mut bytes);
    let count = number_field(case, 4);
    let end = end_fields(case);
    print_remapped(rt, line_ends::remap(count, &lines[0..i], &bytes[0..j], end))
}
