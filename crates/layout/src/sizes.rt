// The sizes of a layout, with its column and row lines.
ghost use Rattle.std.specs.Prelude.{◌≤◌};
ghost use mathlib.Core.List.{Memᴰ};
ghost use Rattle.grid.specs.Values.{Rect};
ghost use Rattle.representation.specs.LayoutEntries.{Inside};
ghost use Rattle.representation.specs.Traced.{rects_held};
ghost use Rattle.layout.specs.Sized.{LayoutSized};

use crate::LayoutSizes;
use crate::bounds::{col_bounds, row_bounds};
use crate::range_entries::count_ranges;
use representation::Bounds;
use representation::rects::Rects;
use text::Column;

// The lines between which the rows and columns of a layout lie, its sizes, and whether an array has
// too little room for them. No Result: the lines and sizes are told of a short array too.
#[derive(Clone, Copy)]
pub struct Measured {
    pub tops: Bounds,
    pub lefts: Bounds,
    pub sizes: LayoutSizes,
    pub short: bool,
}

// From the rectangles of a drawing, and the lengths of the four arrays.
pub fn measure(
    rects: Rects,
    height: usize,
    width: Column,
    cols: usize,
    rows: usize,
    cells: usize,
    ranges: usize,
) -> Measured
    requires size { (height ≤ 128) × (width.0 ≤ 128) }
    requires inside { (r : Rect) → Memᴰ r (rects_held rects) → Inside 128 128 r }
    ensures { LayoutSized height width.0 (rects_held rects.entry) rects.entry.count cols rows cells ranges result }
{
    let tops = row_bounds(rects, height);
    let lefts = col_bounds(rects, width);
    let sizes = LayoutSizes {
        width,
        columns: lefts.bands(),
        rows: tops.bands(),
        cells: rects.count,
        ranges: count_ranges(rects),
    };
    let short = cols < 2 * sizes.columns
        || rows < 3 * sizes.rows
        || cells < 5 * sizes.cells
        || ranges < 2 * sizes.ranges;
    Measured {
        tops,
        lefts,
        sizes,
        short,
    }
}
