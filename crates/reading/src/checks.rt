// Reading's checks 13 and 3, before the slots; the Rust has neither.
ghost use Rattle.std.specs.Prelude.{◌≤◌, ◌≡◌, true, not, length, take, eqb};
ghost use Rattle.seq.specs.Lists.{sum, first_at};
ghost use Rattle.text.specs.Utf8.{well_formed, plain};
ghost use Rattle.grid.specs.Flat.{drawing_contradicts, split_text};
ghost use Rattle.grid.specs.LayoutCall.{slot_space};
ghost use Rattle.representation.specs.Lent.{drawing_of};
ghost use Rattle.reading.specs.Agreement.{WithinLimits};
ghost use Rattle.reading.specs.Checks.{place_of, LinesScanned};

use representation::lent::Drawing;
use slots::scan::{PLAIN, scan_next};
use text::Column;
use utf8::line_text::{is_plain, well_formed};

// How many bytes are tested at a time.
const BLOCK: usize = 512;

// Do the lengths add up to this number? It is counted down, so that no sum can wrap.
fn adds_up(lengths: &[u16], bytes: usize) -> bool
    ensures { result ≡ eqb (sum lengths.now) bytes }
{
    let mut left = bytes;
    for length in lengths {
        let length = *length as usize;
        if left < length {
            return false;
        }
        left -= length;
    }
    left == 0
}

// 13, of a drawing.
#[tactic(auto, using(std::proofs::lemmas::Bool::Decides::nat_tests), unfolding(grid::specs::Flat::drawing_contradicts))]
pub fn contradicts(drawing: Drawing<'_>) -> bool
    ensures { result ≡ drawing_contradicts (drawing_of drawing.entry) }
{
    let Drawing {
        lines,
        bytes,
        lengths,
        columns,
        text,
    } = drawing;
    lengths.len() != lines
        || columns.len() != lines
        || text.len() != bytes
        || !adds_up(lengths, bytes)
}

// 3: the first line that is not UTF-8 or has a character outside the set.
pub fn first_outside(lengths: &[u16], text: &[u8]) -> Option<usize>
    requires { sum lengths.now ≡ length text.now }
    ensures { place_of result ≡ first_at (λ line. not (well_formed line)) 0 (split_text lengths.now text.now) }
{
    let mut rest = text;
    for (y, length) in lengths.iter().enumerate() {
        let (line, after) = rest.split_at(*length as usize);
        if !well_formed(line) {
            return Some(y);
        }
        rest = after;
    }
    None
}

// How many bytes at the start are known to be plain: all of them, or whole blocks.
fn plain_start(text: &[u8]) -> usize
    ensures { (result ≤ length text.now) × (plain (take result text.now) ≡ true) }
{
    let mut n = 0;
    for block in text.chunks_exact(BLOCK) {
        if !is_plain(block) {
            return n;
        }
        n += BLOCK;
    }
    if is_plain(&text[n..]) { text.len() } else { n }
}

// first_outside, of a drawing's lines: what is known of each of them afterwards goes to the arrays. Blocks of the
// text are tested quicker than its lines.
pub fn scan_lines(
    drawing: Drawing<'_>,
    glyphs: &mut [u8],
    offsets: &mut [u16],
    counts: &mut [u8],
) -> Option<usize>
    requires within_limits { WithinLimits drawing.lengths.now drawing.columns.now drawing.text.now }
    requires slot_space_in_bounds { (slot_space ≤ length glyphs.old) × (slot_space ≤ length offsets.old) × (128 ≤ length counts.old) }
    ensures { LinesScanned drawing.entry.lengths.now drawing.entry.columns.now drawing.entry.text.now
        glyphs.new offsets.new counts.new result }
{
    let Drawing {
        lengths,
        columns,
        text,
        ..
    } = drawing;
    let known = plain_start(text);
    if known == text.len() {
        counts[..lengths.len()].fill(PLAIN);
        return None;
    }
    let mut at = 0;
    for (y, length) in lengths.iter().enumerate() {
        let end = at + *length as usize;
        let column = Column(columns[y] as usize);
        if !scan_next(
            &text[at..end],
            end <= known,
            column,
            y,
            glyphs,
            offsets,
            counts,
        ) {
            return Some(y);
        }
        at = end;
    }
    None
}
