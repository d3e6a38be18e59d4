// Writes the lines of one cell: their lengths, and their text back to back.
ghost use Rattle.std.specs.Prelude.{ℕ, ◌+◌, ◌≤◌, ◌<◌, ◌≡◌, ◌++◌, map, length, take, drop};
ghost use Rattle.seq.specs.Lists.{range};
ghost use Rattle.grid.specs.Flat.{join_text};
ghost use Rattle.cell.specs.Text.{cut_between, Cuttable, most_text};
ghost use Rattle.cell.specs.Given.{source_of};

use crate::source::Source;
use representation::rect::Rect;
use text::ByteAt;
use writer::copy;

impl Source<'_, '_> {
    // The first `count` lines of a cell: their lengths from entry `at` on, and their text from `byte`
    // on. Answers where the text ends.
    pub fn write_lines(
        &self,
        rect: Rect,
        count: usize,
        at: usize,
        byte: ByteAt,
        out_lengths: &mut [u16],
        out_text: &mut [u8],
    ) -> ByteAt
        requires cuttable { (y : ℕ) → rect.top < y → y ≤ rect.top + count → Cuttable (source_of self.now) rect.left.0 rect.right.0 y }
        requires room { let texts = map (cut_between (source_of self.now) rect.left.0 rect.right.0) (range (rect.top + 1) count) in
            (at + count ≤ length out_lengths.old)
            × (byte.0 + length (join_text texts) ≤ length out_text.old)
            × (byte.0 + length (join_text texts) ≤ most_text) }
        ensures end { let texts = map (cut_between (source_of self.now) rect.left.0 rect.right.0) (range (rect.top + 1) count) in
            result.0 ≡ byte.0 + length (join_text texts) }
        ensures lengths_written { let texts = map (cut_between (source_of self.now) rect.left.0 rect.right.0) (range (rect.top + 1) count) in
            out_lengths.new ≡ take at out_lengths.old ++ map length texts ++ drop (at + count) out_lengths.old }
        ensures text_written { let texts = map (cut_between (source_of self.now) rect.left.0 rect.right.0) (range (rect.top + 1) count) in
            out_text.new ≡ take byte.0 out_text.old ++ join_text texts ++ drop result.0 out_text.old }
    {
        let mut end = byte.0;
        for i in 0..count {
            let piece = self.cut_line(rect.left, rect.right, rect.top + 1 + i);
            out_lengths[at + i] = piece.len() as u16;
            end = copy(piece, out_text, end);
        }
        ByteAt(end)
    }
}
