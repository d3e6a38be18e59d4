// Writes the lines of all cells: their lengths, and their text back to back.
ghost use Rattle.std.specs.Prelude.{◌≤◌, ◌≡◌, length};
ghost use mathlib.Core.List.{map};
ghost use Rattle.grid.specs.Answer.{over};
ghost use Rattle.grid.specs.Flat.{join_text};
ghost use Rattle.representation.specs.Traced.{rects_held};
ghost use Rattle.cell.specs.Text.{kept_lines, all_lines, AllFramed, CountedBy, most_text};
ghost use Rattle.cell.specs.Given.{source_of};

use cell::source::Source;
use representation::rect::Rect;
use representation::rects::Rects;
use text::ByteAt;

// The lines of all cells, so many of each: their lengths, and their text back to back.
pub fn write_text(
    source: &Source<'_, '_>,
    rects: Rects<'_>,
    counts: &[u8],
    out_lengths: &mut [u16],
    out_text: &mut [u8],
)
    requires framed { AllFramed (source_of source.now) (rects_held rects) }
    requires counted { CountedBy (λ r. length (kept_lines (source_of source.now) r)) (rects_held rects) counts.now }
    requires line_room { length (all_lines (source_of source.now) (rects_held rects)) ≤ length out_lengths.old }
    requires byte_room { length (join_text (all_lines (source_of source.now) (rects_held rects))) ≤ length out_text.old }
    requires few_bytes { length (join_text (all_lines (source_of source.now) (rects_held rects))) ≤ most_text }
    ensures lengths_written { out_lengths.new ≡ over (map length (all_lines (source_of source.now) (rects_held rects.entry))) out_lengths.old }
    ensures text_written { out_text.new ≡ over (join_text (all_lines (source_of source.now) (rects_held rects.entry))) out_text.old }
{
    let mut line = 0;
    let mut byte = ByteAt(0);
    for k in 0..rects.count {
        let count = counts[k] as usize;
        let rect = Rect::at(rects.array, k);
        byte = source.write_lines(rect, count, line, byte, out_lengths, out_text);
        line += count;
    }
}
