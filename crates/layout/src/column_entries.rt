// The entries of columns, from the lines between which they lie.
ghost use Rattle.std.specs.Prelude.{◌*◌, ◌-◌, ◌≤◌, ◌≡◌, length};
ghost use Rattle.grid.specs.Answer.{over};
ghost use Rattle.representation.specs.LayoutEntries.{lines_held};
ghost use Rattle.layout.specs.Columns.{columns_of};

use crate::alignments::AlignmentLine;
use representation::Bounds;
use text::Column;

// Each column's alignment and width.
pub fn write_columns(columns: Bounds, line: AlignmentLine<'_>, out: &mut [u16])
    requires { 2 * (columns.count - 1) ≤ length out.old }
    ensures { out.new ≡ over (columns_of line.entry (lines_held columns)) out.old }
{
    for k in 0..columns.bands() {
        let (from, to) = columns.band(k);
        out[2 * k] = u16::from(line.alignment(Column(from)));
        out[2 * k + 1] = (to - from - 1) as u16;
    }
}
