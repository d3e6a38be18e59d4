// Writes the cut lines of a cell in numbers.
ghost use Rattle.std.specs.Prelude.{◌+◌, ◌*◌, ◌-◌, ◌≤◌, ◌≡◌, ◌++◌, length, take, drop};
ghost use Rattle.grid.specs.Answer.{over};
ghost use Rattle.grid.specs.TableCall.{cut_array};
ghost use Rattle.representation.specs.Lent.{rect_of};
ghost use Rattle.cell.specs.Text.{Framed};
ghost use Rattle.cell.specs.Cuts.{cuts_of};
ghost use Rattle.cell.specs.Given.{source_of};

use crate::source::Source;
use representation::rect::Rect;

// One cut line's entries, from entry `at` on.
fn write_cut(entries: [u16; 4], at: usize, out: &mut [u16])
    requires { at + 4 ≤ length out.old }
    ensures { out.new ≡ take at out.old ++ entries ++ drop (at + 4) out.old }
{
    out[at..at + 4].copy_from_slice(&entries);
}

impl Source<'_, '_> {
    // For each inner line of a cell its index, where its cut starts and ends in it, and its column.
    pub fn write_cuts(&self, rect: Rect, out: &mut [u16])
        requires framed { Framed (source_of self.now) (rect_of rect) }
        requires room { 4 * (rect.bottom - rect.top - 1) ≤ length out.old }
        ensures { out.new ≡ over (cut_array (cuts_of (source_of self.now) (rect_of rect))) out.old }
    {
        let first = rect.top + 1;
        for y in first..rect.bottom {
            let piece = self.piece_at(rect.left, rect.right, y);
            let at = 4 * (y - first);
            let entries = [
                y as u16,
                piece.start.0 as u16,
                piece.end.0 as u16,
                piece.column.0 as u16,
            ];
            write_cut(entries, at, out);
        }
    }
}
