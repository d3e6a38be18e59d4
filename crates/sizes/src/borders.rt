// Where the borders of columns and rows stand.
ghost use Rattle.std.specs.Prelude.{◌+◌, ◌*◌, ◌≤◌, ◌≡◌, map, length, take, replicate};
ghost use Rattle.grid.specs.Flat.{columns_of_array};
ghost use Rattle.drawing.specs.Sizes.{least_width, start_width, fit as fitted, offsets as offsets_of};
ghost use Rattle.sizes.specs.Needs.{needs_in, Spanned, EachAtMost};

use crate::fit::fit;
use grid::TableAlignment;
use table_checks::column_entry::ColumnEntry;

// At least 1, or 3 if aligned.
fn least_width(alignment: TableAlignment) -> usize
    ensures { result ≡ least_width alignment }
{
    match alignment {
        TableAlignment::None => 1,
        _ => 3,
    }
}

// The widths at which columns start: the declared ones, unless they are too small.
fn start_widths(cols: &[u16], columns: usize) -> [usize; 128]
    requires { (columns ≤ 127) × (length cols.now ≡ 2 * columns) }
    ensures result_value { take columns result ≡ map start_width (columns_of_array columns cols.now) }
    ensures result_len { (length result ≡ 128) × EachAtMost 65535 result }
{
    let mut sizes = [1usize; 128];
    for k in 0..columns {
        let column = ColumnEntry::at(cols, k);
        sizes[k] = (column.width as usize).max(least_width(column.alignment));
    }
    sizes
}

// One before, between and after the sizes.
fn offsets(sizes: [usize; 128], count: usize) -> [usize; 128]
    requires { (count ≤ 127) × (length sizes ≡ 128) × EachAtMost (65535 * 1025) sizes }
    ensures { (length result ≡ 128) × (take (count + 1) result ≡ offsets_of (take count sizes)) }
{
    let mut at = [0usize; 128];
    for i in 0..count {
        at[i + 1] = at[i] + sizes[i] + 1;
    }
    at
}

// The columns of the borders: the widths start as declared and grow by what cells need.
pub fn column_offsets(
    columns: usize,
    cols: &[u16],
    n: usize,
    cells: &[u16],
    wides: &[u16],
) -> [usize; 128]
    requires columns_bound { (columns ≤ 127) × (length cols.now ≡ 2 * columns) }
    requires spanned { Spanned n 1 2 cells.now columns × (n ≤ length wides.now) }
    ensures { let widths = fitted (map start_width (columns_of_array columns cols.now)) (needs_in n 1 2 cells.now wides.now) in
        (length result ≡ 128) × (take (columns + 1) result ≡ offsets_of widths) }
{
    let widths = fit(start_widths(cols, columns), cells, n, 1, 2, wides);
    offsets(widths, columns)
}

// The lines of the borders: the heights start at 1 and grow by what cells need.
pub fn row_offsets(rows: usize, n: usize, cells: &[u16], heights: &[u16]) -> [usize; 128]
    requires { (rows ≤ 127) × Spanned n 0 3 cells.now rows × (n ≤ length heights.now) }
    ensures { let highs = fitted (replicate rows 1) (needs_in n 0 3 cells.now heights.now) in
        (length result ≡ 128) × (take (rows + 1) result ≡ offsets_of highs) }
{
    offsets(fit([1usize; 128], cells, n, 0, 3, heights), rows)
}
