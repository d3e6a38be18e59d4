// Writes the sections of a table's rows.
ghost use Rattle.std.specs.Prelude.{◌-◌, ◌≤◌, ◌≡◌, length};
ghost use Rattle.grid.specs.Answer.{over};
ghost use Rattle.representation.specs.LayoutEntries.{lines_numbered};
ghost use Rattle.representation.specs.TableEntries.{section_entries};

use layout::sections::section;
use representation::{Numbering, Parts};

// Each row's section.
pub fn write_sections(tops: Numbering, parts: Parts, out: &mut [u8])
    requires few { tops.count ≤ 128 }
    requires room { tops.count - 1 ≤ length out.old }
    ensures { out.new ≡ over (section_entries parts (lines_numbered tops)) out.old }
{
    for k in 0..tops.count.saturating_sub(1) {
        out[k] = u8::from(section(parts, usize::from(tops.lines[k])));
    }
}
