// The entries of rows, from the lines between which they lie.
ghost use Rattle.std.specs.Prelude.{◌*◌, ◌-◌, ◌≤◌, ◌≡◌, length};
ghost use Rattle.grid.specs.Answer.{over};
ghost use Rattle.representation.specs.LayoutEntries.{lines_numbered, row_entries};

use crate::sections::section;
use representation::{Numbering, Parts};

// Each row's section, top and bottom.
pub fn write_rows(rows: Numbering, parts: Parts, out: &mut [u16])
    requires few { rows.count ≤ 128 }
    requires room { 3 * (rows.count - 1) ≤ length out.old }
    ensures { out.new ≡ over (row_entries parts (lines_numbered rows)) out.old }
{
    for k in 0..rows.count.saturating_sub(1) {
        let top = rows.lines[k];
        out[3 * k] = u16::from(section(parts, usize::from(top)));
        out[3 * k + 1] = u16::from(top);
        out[3 * k + 2] = u16::from(rows.lines[k + 1]);
    }
}
