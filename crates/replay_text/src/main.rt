// Answers cases on standard input with the functions of `text`, a line for a line. The stored answers come from the Rust.
//
//     t HEX         the length of the trimmed line
//     r FILL HEX    1 where the line is a rule of the fill byte, else 0
//     d AT HEX      C, value and size of the character at a byte, or B
//     w VALUE       the columns of a character, or N
//     b COLUMN      the columns of a tab
//
// Fields are parted by single spaces. Bytes are pairs of hexadecimal digits in lower case, `-` for none, and numbers decimal, of
// at most 18 digits.
#![tactic(auto)]

use replaying::{answer_lines, number_field, print, text_field, word_field};
use std::io;
use text::{ByteAt, Character, Column};

fn answer_trim(rt: &impl Print, case: &[u8]) -> io::Result<()> {
    let mut bytes = [0u8; 4096];
    let n = text_field(case, 1, &mut bytes);
    let kept = rule_lines::trim::trim_end(&bytes[0..n]);
    rt.print(kept.len())
}

fn byte_field(case: &[u8], k: usize) -> u8 {
    u8::try_from(number_field(case, k)).unwrap_or(u8::MAX)
}

fn answer_rule(rt: &impl Print, case: &[u8]) -> io::Result<()> {
    let mut bytes = [0u8; 4096];
    let n = text_field(case, 2, &mut bytes);
    let is_rule = rule_lines::rule::is_rule(&bytes[0..n], byte_field(case, 1));
    rt.print(u8::from(is_rule))
}

fn answer_decode(rt: &impl Print, case: &[u8]) -> io::Result<()> {
    let mut bytes = [0u8; 4096];
    let n = text_field(case, 2, &mut bytes);
    match utf8::decode(&bytes[0..n], ByteAt(number_field(case, 1))) {
        Some(Character { value, size }) => {
            rt.write_all(b"C")?;
            print(rt, value)?;
            print(rt, size)
        }
        None => rt.write_all(b"B"),
    }
}

fn answer_width(rt: &impl Print, case: &[u8]) -> io::Result<()> {
    match characters::width(word_field(case, 1)) {
        Some(n) => rt.print(n),
        None => rt.write_all(b"N"),
    }
}

fn answer_tab(rt: &impl Print, case: &[u8]) -> io::Result<()> {
    rt.print(characters::tab_columns(Column(number_field(case, 1))))
}

fn answer_line(rt: &impl Print, case: &[u8]) -> io::Result<()> {
    let Some(kind) = case.first() else {
        return Ok(());
    };
    match *kind {
        b't' => answer_trim(rt, case)?,
        b'r' => answer_rule(rt, case)?,
        b'd' => answer_decode(rt, case)?,
        b'w' => answer_width(rt, case)?,
        b'b' => answer_tab(rt, case)?,
        _ => {}
    }
    rt.write_all(b"\n")
}

fn main(rt: HostRuntime) -> io::Result<()> {
    answer_lines(&mut rt.stdin(), |line| answer_line(&rt, line))
}
