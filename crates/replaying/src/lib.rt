// What the programs that replay cases have in common: the lines of the input, the fields of a case, and printing.
//
// What reads or prints fails where standard input or output does, with the same error.
#![tactic(auto)]

ghost use Rattle.std.specs.Prelude.{◌≤◌, ◌<◌, ◌≡◌, IfOk, IfSome, length};

use input::read_input;
use representation::lent::Drawing;
use std::fmt::Display;
use std::io;
use std::io::Read;

fn digit(b: u8) -> u8
    ensures { result < 16 }
{
    match b {
        b'0'..=b'9' => b - b'0',
        b'a'..=b'f' => b - b'a' + 10,
        _ => 0,
    }
}

fn pair(high: u8, low: u8) -> u8 {
    digit(high) * 16 + digit(low)
}

// Digits after the eighteenth are left out, so that the number fits.
fn number(digits: &[u8]) -> usize {
    let mut value: usize = 0;
    for b in digits {
        if value > 99_999_999_999_999_999 {
            return value;
        }
        value = value * 10 + usize::from(digit(*b));
    }
    value
}

// A number of 32 bits; the largest for one that does not fit.
fn word(digits: &[u8]) -> u32 {
    u32::try_from(number(digits)).unwrap_or(u32::MAX)
}

// A number of 16 bits; the largest for one that does not fit.
pub fn half_word(n: u32) -> u16 {
    u16::try_from(n).unwrap_or(u16::MAX)
}

// Puts an item so many times, as often as there is room, and gives the next place.
fn repeat<T: Copy>(item: T, times: usize, out: &mut [T], at: usize) -> usize
    requires { at ≤ length out.old }
    ensures { result ≤ length out.new }
{
    let end = at + times.min(out.len() - at);
    for place in &mut out[at..end] {
        *place = item;
    }
    end
}

// An item of a list is a number or, as `7x5`, a number and how often it stands there.
fn item_of(item: &[u8]) -> (u32, usize) {
    match item.iter().position(|b| *b == b'x') {
        Some(sign) => (word(&item[..sign]), number(&item[sign + 1..])),
        None => (word(item), 1),
    }
}

// The number at the start of a list, how often it stands there, and the rest of the list. A `-` ends a list.
fn first_number(list: &[u8]) -> Option<(u32, usize, &[u8])>
    ensures { IfSome result (λ (n, times, rest). length rest.now < length list.now) }
{
    if list.is_empty() || list.starts_with(b"-") {
        return None;
    }
    match list.iter().position(|b| *b == b',') {
        Some(comma) => {
            let (n, times) = item_of(&list[..comma]);
            Some((n, times, &list[comma + 1..]))
        }
        None => {
            let (n, times) = item_of(list);
            Some((n, times, &[]))
        }
    }
}

// Puts the numbers of a list at the start of `out`, as many as it has room for, and counts them.
fn numbers<T: Copy, F: Fn(u32) -> T>(list: &[u8], fitted: F, out: &mut [T]) -> usize
    requires { F.IsAlwaysCallable fitted }
    ensures { result ≤ length out.new }
{
    let mut n = 0;
    let mut left = list;
    // A while: numbers are taken off the front, each of its own length.
    while let Some((number, times, rest)) = first_number(left) {
        n = repeat(fitted(number), times, out, n);
        left = rest;
    }
    n
}

// The byte at the start of a text, how often it stands there, and the rest of the text.
fn first_bytes(text: &[u8]) -> Option<(u8, usize, &[u8])>
    ensures { IfSome result (λ (b, times, rest). length rest.now < length text.now) }
{
    match text {
        [b'r', a, b, c, d, high, low, rest @ ..] => {
            let times = usize::from(pair(*a, *b)) * 256 + usize::from(pair(*c, *d));
            Some((pair(*high, *low), times, rest))
        }
        [b'r', ..] => None,
        [high, low, rest @ ..] => Some((pair(*high, *low), 1, rest)),
        _ => None,
    }
}

// Puts the text at the start of `out`, as much as it has room for, and counts its bytes.
fn unpack(text: &[u8], out: &mut [u8]) -> usize
    ensures { result ≤ length out.new }
{
    let mut n = 0;
    let mut left = text;
    // A while: what is repeated takes more bytes than what is not.
    while let Some((b, times, rest)) = first_bytes(left) {
        n = repeat(b, times, out, n);
        left = rest;
    }
    n
}

// Field k of a line, an empty one where it has fewer.
fn field(line: &[u8], k: usize) -> &[u8] {
    line.split(|b| *b == b' ').nth(k).unwrap_or(&[])
}

pub fn number_field(line: &[u8], k: usize) -> usize {
    number(field(line, k))
}

pub fn word_field(line: &[u8], k: usize) -> u32 {
    word(field(line, k))
}

pub fn words_field(line: &[u8], k: usize, out: &mut [u32]) -> usize
    ensures { result ≤ length out.new }
{
    numbers(field(line, k), |n| n, out)
}

pub fn numbers_field(line: &[u8], k: usize, out: &mut [u16]) -> usize
    ensures { result ≤ length out.new }
{
    numbers(field(line, k), half_word, out)
}

pub fn text_field(line: &[u8], k: usize, out: &mut [u8]) -> usize
    ensures { result ≤ length out.new }
{
    unpack(field(line, k), out)
}

pub fn print<D: Display + Drop>(rt: &impl Print, value: D) -> io::Result<()> {
    rt.write_all(b" ")?;
    rt.print(value)
}

// The first n entries, or all where there are fewer.
pub fn print_entries<T: Copy + Display + Drop>(
    rt: &impl Print,
    array: &[T],
    n: usize,
) -> io::Result<()> {
    for entry in array.iter().take(n) {
        print(rt, *entry)?;
    }
    Ok(())
}

// The number of an item's entries, which are the same, and how many they are if not one.
fn print_item(rt: &impl Print, item: &[u32]) -> io::Result<()>
    requires { 0 < length item.now }
{
    rt.print(item[0])?;
    if item.len() > 1 {
        rt.write_all(b"x")?;
        rt.print(item.len())?;
    }
    Ok(())
}

// Prints a list as a case has it: from five on, the same numbers in a row are one item.
pub fn print_list(rt: &impl Print, array: &[u32]) -> io::Result<()> {
    rt.write_all(b" ")?;
    if array.is_empty() {
        rt.write_all(b"-")?;
    }
    let mut is_first = true;
    for run in array.chunk_by(|a, b| a == b) {
        let size = if run.len() < 5 { 1 } else { run.len() };
        for item in run.chunks(size) {
            if !is_first {
                rt.write_all(b",")?;
            }
            is_first = false;
            print_item(rt, item)?;
        }
    }
    Ok(())
}

// The length of array i, at most `most`.
pub fn space(spaces: &[u16], i: usize, most: usize) -> usize
    ensures { result ≤ most }
{
    spaces.get(i).map_or(most, |n| usize::from(*n).min(most))
}

// A whole line of the input: where it starts and ends in the buffer, and how many bytes the buffer holds.
#[derive(Clone, Copy)]
struct Line {
    start: usize,
    end: usize,
    held: usize,
}

fn line_feed(bytes: &[u8]) -> Option<usize>
    ensures { IfSome result (λ end. end < length bytes.now) }
{
    bytes.iter().position(|b| *b == b'\n')
}

// The line from `from` on, in a buffer that holds so many bytes. Where they end before it does, they are moved to the start and the
// buffer is filled; one that does not end then is no whole line. After an error the buffer holds no line, and any bytes.
fn line_from(
    stdin: &mut impl Read,
    buffer: &mut [u8],
    from: usize,
    held: usize,
) -> io::Result<Option<Line>>
    requires { (from ≤ held) × (held ≤ length buffer.old) }
    ensures length { length buffer.new ≡ length buffer.old }
    ensures line { IfOk result (λ found. IfSome found (λ line.
        (line.start ≤ line.end) × (line.end < line.held) × (line.held ≤ length buffer.new))) }
{
    if let Some(size) = line_feed(&buffer[from..held]) {
        return Ok(Some(Line {
            start: from,
            end: from + size,
            held,
        }));
    }
    buffer.copy_within(from..held, 0);
    let kept = held - from;
    let held = kept + read_input(stdin, &mut buffer[kept..])?;
    match line_feed(&buffer[..held]) {
        Some(end) => Ok(Some(Line {
            start: 0,
            end,
            held,
        })),
        None => Ok(None),
    }
}

// At most 65,536 lines are read.
const MAX_LINES: usize = 65536;

// Answers each line of the input, up to one that is longer than the buffer or that no line feed ends.
// The buffer is of a fixed size, and is filled before its lines are answered, so that a failed read leaves the same lines without an answer.
pub fn answer_lines<F: Fn(&[u8]) -> io::Result<()>>(
    stdin: &mut impl Read,
    answer: F,
) -> io::Result<()>
    requires { F.IsAlwaysCallable answer }
{
    let mut buffer = [0u8; 65536];
    let mut next = line_from(stdin, &mut buffer, 0, 0)?;
    for _ in 0..MAX_LINES {
        let Some(line) = next else {
            return Ok(());
        };
        answer(&buffer[line.start..line.end])?;
        next = line_from(stdin, &mut buffer, line.end + 1, line.held)?;
    }
    Ok(())
}

// Answers a case by its drawing: sizes, line lengths, line columns and text, from field `first` on.
pub fn answer_drawing<F: FnOnce(Drawing<'_>) -> io::Result<()>>(
    case: &[u8],
    first: usize,
    answer: F,
) -> io::Result<()>
    requires first { first ≤ 1 }
    requires callable { F.IsAlwaysCallable answer }
{
    let mut lengths = [0u16; 256];
    let n = numbers_field(case, first + 2, &mut lengths);
    let mut columns = [0u16; 256];
    let m = numbers_field(case, first + 3, &mut columns);
    let mut text = [0u8; 40000];
    let k = text_field(case, first + 4, &mut text);
    answer(Drawing {
        lines: number_field(case, first),
        bytes: number_field(case, first + 1),
        lengths: &lengths[..n],
        columns: &columns[..m],
        text: &text[..k],
    })
}
