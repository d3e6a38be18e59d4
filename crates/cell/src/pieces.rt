// The cut lines of cells: how many there are, and the lines themselves.
ghost use Rattle.std.specs.Prelude.{ℕ, ◌*◌, ◌≤◌, ◌<◌, ◌≡◌, length, get_or, take};
ghost use mathlib.Core.List.{map};
ghost use Rattle.seq.specs.Lists.{sum};
ghost use Rattle.grid.specs.Flat.{join_text};
ghost use Rattle.representation.specs.Lent.{rect_of};
ghost use Rattle.representation.specs.Traced.{rects_held};
ghost use Rattle.cell.specs.Text.{most_text, source, cut_between, kept_lines, all_lines};
ghost use Rattle.cell.specs.Text.{Cuttable, PieceOf, Framed, AllFramed, CountedBy, Preparable, Prepared};
ghost use Rattle.cell.specs.Given.{source_of};

use crate::source::Source;
use fragments::part::{Piece, cut_part};
use representation::rect::Rect;
use representation::rects::Rects;
use slots::map::byte_at;
use text::{ByteAt, Column};

// How many lines, and their bytes.
#[derive(Clone, Copy)]
pub struct TextSize {
    pub lines: usize,
    pub bytes: usize,
}

// Where each line's text starts.
pub fn line_starts(lengths: &[u16], starts: &mut [u16])
    requires { (length lengths.now ≤ length starts.old) × (sum lengths.now ≤ 32768) }
    ensures starts_len_unchanged { length starts.new ≡ length starts.old }
    ensures by_index { (y : ℕ) → y < length lengths.now → get_or starts.new y 0 ≡ sum (take y lengths.now) }
{
    let mut at = 0;
    for (y, length) in lengths.iter().enumerate() {
        starts[y] = at;
        at += *length;
    }
}

impl<'t> Source<'_, 't> {
    // Where the cut of line y between two columns starts and ends in it, and its column.
    pub fn piece_at(&self, left: Column, right: Column, y: usize) -> Piece
        requires { Cuttable (source_of self.now) left.0 right.0 y }
        ensures { PieceOf (source_of self.now) left.0 right.0 y result }
    {
        let from = self.starts[y] as usize;
        let to = from + self.lengths[y] as usize;
        let line = &self.text[from..to];
        let column = Column(self.columns[y] as usize);
        let border = byte_at(self.offsets, y, left);
        let start = ByteAt(border.0 + 1);
        let end = byte_at(self.offsets, y, right);
        cut_part(line, column, start, end, left)
    }

    // What lies between two columns of line y, cut.
    pub fn cut_line(&self, left: Column, right: Column, y: usize) -> &'t [u8]
        requires { Cuttable (source_of self.now) left.0 right.0 y }
        ensures { result.now ≡ cut_between (source_of self.now) left.0 right.0 y }
    {
        let piece = self.piece_at(left, right, y);
        let at = self.starts[y] as usize;
        let from = at + piece.start.0;
        let to = at + piece.end.0;
        &self.text[from..to]
    }

    // How many lines of a cell are kept, and their bytes.
    pub fn measure_cell(&self, rect: Rect) -> TextSize
        requires { Framed (source_of self.now) (rect_of rect) }
        ensures lines { (result.lines ≡ length (kept_lines (source_of self.now) (rect_of rect))) × (result.lines < 128) }
        ensures bytes { (result.bytes ≡ sum (map length (kept_lines (source_of self.now) (rect_of rect)))) × (result.bytes ≤ 65536) }
    {
        let mut lines = 0;
        let mut bytes = 0;
        for y in rect.top + 1..rect.bottom {
            let piece = self.cut_line(rect.left, rect.right, y);
            if !piece.is_empty() {
                lines = y - rect.top;
            }
            bytes += piece.len();
        }
        TextSize { lines, bytes }
    }

    // How many lines and bytes all cells have; the number of lines of each goes to `counts`.
    pub fn measure(&self, rects: Rects<'_>, counts: &mut [u8]) -> TextSize
        requires framed { AllFramed (source_of self.now) (rects_held rects) }
        requires room { rects.count ≤ length counts.old }
        ensures lines { result.lines ≡ length (all_lines (source_of self.now) (rects_held rects.entry)) }
        ensures bytes { result.bytes ≡ length (join_text (all_lines (source_of self.now) (rects_held rects.entry))) }
        ensures counted { CountedBy (λ r. length (kept_lines (source_of self.now) r)) (rects_held rects.entry) counts.new }
        ensures few_bytes { result.bytes ≤ most_text }
    {
        let mut lines = 0;
        let mut bytes = 0;
        for k in 0..rects.count {
            let size = self.measure_cell(Rect::at(rects.array, k));
            counts[k] = size.lines as u8;
            lines += size.lines;
            bytes += size.bytes;
        }
        TextSize { lines, bytes }
    }
}

// Where each line starts, and how many lines and bytes all cells have. `starts` and `counts` are
// working space.
pub fn prepare(
    lengths: &[u16],
    columns: &[u16],
    text: &[u8],
    offsets: &[u16],
    rects: Rects<'_>,
    starts: &mut [u16],
    counts: &mut [u8],
) -> TextSize
    requires { Preparable lengths.now columns.now text.now offsets.now rects.array.now rects.count starts.old counts.old }
    ensures { let sheet = source lengths.now columns.now text.now starts.new offsets.now in
        Prepared sheet (rects_held rects.entry) counts.new result }
{
    line_starts(lengths, starts);
    let source = Source {
        lengths,
        columns,
        text,
        offsets,
        starts,
    };
    source.measure(rects, counts)
}
