// The entries of cells.
ghost use Rattle.std.specs.Prelude.{ℕ, ◌+◌, ◌*◌, ◌≤◌, ◌≡◌, length, take, drop};
ghost use mathlib.Core.List.{◌++◌, Memᴰ};
ghost use Rattle.grid.specs.Values.{Rect};
ghost use Rattle.grid.specs.Answer.{over};
ghost use Rattle.representation.specs.LayoutEntries.{lines_numbered, cell_entries, Numbered};
ghost use Rattle.representation.specs.TableEntries.{table_entries};
ghost use Rattle.representation.specs.Traced.{rects_held};
ghost use Rattle.layout.specs.Written.{MoreRoom, MoreIn};

use representation::Numbering;
use representation::rects::Rects;

// One cell's entries, from entry `at` on.
pub fn write_cell(entries: [u16; 5], at: usize, out: &mut [u16])
    requires { at + 5 ≤ length out.old }
    ensures { out.new ≡ take at out.old ++ entries ++ drop (at + 5) out.old }
{
    out[at..at + 5].copy_from_slice(&entries);
}

// Each cell's row, column, colspan and rowspan, and one number more: entry `step * k + from` of an array.
pub fn write_spans(
    rects: Rects,
    rows: Numbering,
    columns: Numbering,
    more: &[u8],
    step: usize,
    from: usize,
    out: &mut [u16],
)
    requires room { 5 * rects.count ≤ length out.old }
    requires numbered { (r : Rect) → Memᴰ r (rects_held rects) → Numbered rows columns r }
    requires more_room { MoreRoom rects.count more.now step from }
    ensures { let rs = rects_held rects.entry in
        ((f : Rect → ℕ) → MoreIn f rects.entry more.now step from
        → out.new ≡ over (table_entries f (lines_numbered rows) (lines_numbered columns) rs) out.old) }
{
    for k in 0..rects.count {
        let rect = rects.at(k);
        let row = rows.index[rect.top];
        let column = columns.index[rect.left.0];
        let entries = [
            u16::from(row),
            u16::from(column),
            u16::from(columns.index[rect.right.0] - column),
            u16::from(rows.index[rect.bottom] - row),
            u16::from(more[step * k + from]),
        ];
        write_cell(entries, 5 * k, out);
    }
}

// Each cell's row, column, colspan, rowspan and left column.
pub fn write_cells(rects: Rects, rows: Numbering, columns: Numbering, out: &mut [u16])
    requires room { 5 * rects.count ≤ length out.old }
    requires numbered { (r : Rect) → Memᴰ r (rects_held rects) → Numbered rows columns r }
    ensures { out.new ≡ over (cell_entries (lines_numbered rows) (lines_numbered columns) (rects_held rects.entry)) out.old }
{
    write_spans(rects, rows, columns, rects.array, 4, 1, out);
}
