// The four arrays of a layout, written from what tracing left.
ghost use Rattle.std.specs.Prelude.{◌≡◌};
ghost use Rattle.grid.specs.Answer.{over};
ghost use Rattle.representation.specs.LayoutEntries.{lines_held, lines_numbered, row_entries, cell_entries, all_ranges};
ghost use Rattle.representation.specs.Traced.{rects_held};
ghost use Rattle.layout.specs.Call.{layout_lent};
ghost use Rattle.layout.specs.Columns.{columns_of};
ghost use Rattle.layout.specs.Written.{LayoutWritable};

use crate::alignments::AlignmentLine;
use crate::cell_entries::write_cells;
use crate::column_entries::write_columns;
use crate::range_entries::write_ranges;
use crate::row_entries::write_rows;
use representation::rects::Rects;
use representation::{Bounds, Numbering, Parts};

// Writes the four arrays.
pub fn write_layout(
    rects: Rects,
    tops: Numbering,
    lefts: Bounds,
    parts: Parts,
    line: AlignmentLine<'_>,
    offsets: &[u16],
    cols: &mut [u16],
    rows: &mut [u16],
    cells: &mut [u16],
    ranges: &mut [u16],
)
    requires { let out = layout_lent cols.old rows.old cells.old ranges.old in
        LayoutWritable (rects_held rects) rects.count offsets.now tops lefts out }
    ensures columns { cols.new ≡ over (columns_of line.entry (lines_held lefts)) cols.old }
    ensures rows { rows.new ≡ over (row_entries parts (lines_numbered tops)) rows.old }
    ensures cells { cells.new ≡ over (cell_entries (lines_numbered tops) (lines_held lefts) (rects_held rects.entry)) cells.old }
    ensures ranges { ranges.new ≡ over (all_ranges offsets.now (rects_held rects.entry)) ranges.old }
{
    write_columns(lefts, line, cols);
    write_rows(tops, parts, rows);
    write_cells(rects, tops, lefts.numbering(), cells);
    write_ranges(rects, offsets, ranges);
}
