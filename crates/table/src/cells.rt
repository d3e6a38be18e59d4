// Writes the entries of a table's cells.
ghost use Rattle.std.specs.Prelude.{ℕ, ◌*◌, ◌≤◌, ◌≡◌, length};
ghost use mathlib.Core.List.{Memᴰ};
ghost use Rattle.grid.specs.Answer.{over};
ghost use Rattle.grid.specs.Values.{Rect};
ghost use Rattle.representation.specs.LayoutEntries.{lines_numbered, Numbered};
ghost use Rattle.representation.specs.TableEntries.{table_entries};
ghost use Rattle.representation.specs.Traced.{rects_held};
ghost use Rattle.cell.specs.Text.{CountedBy};

use layout::cell_entries::write_spans;
use representation::Numbering;
use representation::rects::Rects;

// Each cell's row, column, colspan, rowspan and number of lines.
pub fn write_table_cells(
    rects: Rects<'_>,
    rows: Numbering,
    columns: Numbering,
    counts: &[u8],
    out: &mut [u16],
)
    requires room { 5 * rects.count ≤ length out.old }
    requires count_room { rects.count ≤ length counts.now }
    requires numbered { (r : Rect) → Memᴰ r (rects_held rects) → Numbered rows columns r }
    ensures { (f : Rect → ℕ) → CountedBy f (rects_held rects.entry) counts.now
        → out.new ≡ over (table_entries f (lines_numbered rows) (lines_numbered columns) (rects_held rects.entry)) out.old }
{
    write_spans(rects, rows, columns, counts, 1, 0, out);
}
