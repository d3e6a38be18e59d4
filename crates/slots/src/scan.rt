// The slots of lines that are not plain, written down while their characters are checked for refusal 3.
ghost use Rattle.std.specs.Prelude.{◌+◌, ◌≤◌, ◌<◌, ◌≡◌, true, length};
ghost use Rattle.text.specs.Utf8.{plain};
ghost use Rattle.slots.specs.Scan.{PutWithin, MarksPassed, LineScanned, clipped as clipped_of, ScanRoom, NextScanned};

use crate::glyphs::put_slots;
use characters::known::span_in_set;
use characters::{in_set, within};
use representation::STRIDE;
use rule_lines::trim::trim_end;
use text::{ByteAt, Column};
use utf8::line_text::is_plain;
use utf8::several::{is_mark, is_three, is_two};

// Stands for the number of columns of a plain line, which has a slot for each byte. No enum: the
// numbers lie in the working space that a caller lends, as bytes.
pub const PLAIN: u8 = 255;

// Writes count slots of one character from column n of the line at `at` on, where they fit.
fn put_within(
    glyphs: &mut [u8],
    offsets: &mut [u16],
    at: usize,
    n: Column,
    count: usize,
    value: u32,
    byte: ByteAt,
)
    requires { (n.0 ≤ 2048) × (count ≤ 4) × (byte.0 ≤ 512) × (at + 128 ≤ length glyphs.old) × (at + 128 ≤ length offsets.old) }
    ensures { PutWithin at n.0 count value byte.0 glyphs.old offsets.old glyphs.new offsets.new }
{
    let n = n.0;
    if n + count <= STRIDE {
        put_slots(glyphs, offsets, at + n, count, false, value, byte);
    }
}

// Past the marks that follow the one at a byte: they take no slots, and there may be many.
fn marks_end(line: &[u8], at: ByteAt) -> ByteAt
    requires { (at.0 + 2 ≤ length line.now) × (length line.now ≤ 512) }
    ensures { MarksPassed line.now (at.0 + 2) result.0 }
{
    let mut byte = at.0 + 2;
    // A while: each turn goes over the two bytes of a mark.
    while byte < line.len() {
        if !is_mark(line, ByteAt(byte)) {
            return ByteAt(byte);
        }
        byte += 2;
    }
    ByteAt(byte)
}

// The columns of a trimmed line that is UTF-8 of the set, whose slots go to the arrays from index `at` on as far as there are 128. Past
// ASCII a character's first byte says its bytes, its columns and its glyph. Not inlined: within its caller too little of it is kept in registers.
#[inline(never)]
fn scan_line(
    line: &[u8],
    column: Column,
    at: usize,
    glyphs: &mut [u8],
    offsets: &mut [u16],
) -> Option<Column>
    requires { (column.0 ≤ 255) × (length line.now ≤ 512) × (at + 128 ≤ length glyphs.old) × (at + 128 ≤ length offsets.old) }
    ensures { LineScanned line.now column.0 at
        glyphs.old offsets.old glyphs.new offsets.new result }
{
    let first = column.0;
    let mut byte = 0;
    let mut n = 0;
    // A while: characters have different sizes.
    while byte < line.len() {
        let a = line[byte] as u32;
        if within(0x20, 0x7e, a) {
            put_within(glyphs, offsets, at, Column(n), 1, a, ByteAt(byte));
            byte += 1;
            n += 1;
        } else if a < 0x80 {
            if !in_set(a) {
                return None;
            }
            let place = first + n;
            let count = span_in_set(a, Column(place));
            put_within(glyphs, offsets, at, Column(n), count, a, ByteAt(byte));
            byte += 1;
            n += count;
        } else if a < 0xcc {
            if !is_two(line, ByteAt(byte)) {
                return None;
            }
            put_within(glyphs, offsets, at, Column(n), 1, a, ByteAt(byte));
            byte += 2;
            n += 1;
        } else if a < 0xe0 {
            if !is_two(line, ByteAt(byte)) {
                return None;
            }
            byte = marks_end(line, ByteAt(byte)).0;
        } else {
            if !is_three(line, ByteAt(byte)) {
                return None;
            }
            put_within(glyphs, offsets, at, Column(n), 2, a, ByteAt(byte));
            byte += 3;
            n += 2;
        }
    }
    Some(Column(n))
}

// More than 128 as 129, which no width is.
fn clipped(columns: Column) -> u8
    ensures { result ≡ clipped_of columns.0 }
{
    columns.0.min(STRIDE + 1) as u8
}

// Is a line plain? It is not looked at where that is known.
fn is_plain_line(text: &[u8], known: bool) -> bool
    requires { known ≡ true → plain text.now ≡ true }
    ensures { result ≡ plain text.now }
{
    known || is_plain(text)
}

// Is line y, which may be known to be plain, UTF-8 of the set? What is known of it afterwards goes to the
// arrays: its slots unless it is plain, and to `counts` how many there are.
pub fn scan_next(
    text: &[u8],
    known: bool,
    column: Column,
    y: usize,
    glyphs: &mut [u8],
    offsets: &mut [u16],
    counts: &mut [u8],
) -> bool
    requires { (known ≡ true → plain text.now ≡ true) × ScanRoom text.now column.0 y glyphs.old offsets.old counts.old }
    ensures { NextScanned text.now column.0 y
        glyphs.old offsets.old counts.old glyphs.new offsets.new counts.new result }
{
    if is_plain_line(text, known) {
        counts[y] = PLAIN;
        return true;
    }
    let Some(n) = scan_line(trim_end(text), column, y * STRIDE, glyphs, offsets) else {
        return false;
    };
    counts[y] = clipped(n);
    true
}
