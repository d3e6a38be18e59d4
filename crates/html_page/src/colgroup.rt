// The columns' shares on the page (html/grid_table.rs: render_colgroup).
ghost use Rattle.std.specs.Prelude.{◌+◌, ◌*◌, ◌≤◌, ◌<◌, ◌≡◌, length};
ghost use mathlib.Core.List.{map, flat_map};
ghost use Rattle.seq.specs.Lists.{sum};
ghost use Rattle.grid.specs.Values.{GridTableColumn};
ghost use Rattle.grid.specs.Flat.{columns_of_array};
ghost use Rattle.html.specs.Shares.{fraction};
ghost use Rattle.html.specs.Page.{col_tag, column_group};
ghost use Rattle.writer.specs.Writing.{Wrote};
ghost use Rattle.html_page.specs.Paged.{col_of};

use crate::share::share_of;
use html::Share;
use table_checks::column_entry::ColumnEntry;
use writer::decimals::decimal;
use writer::{copy, put};

// All widths together.
fn total_width(columns: usize, cols: &[u16]) -> u32
    requires { (length cols.now ≡ 2 * columns) × (columns ≤ 127) }
    ensures { result ≡ sum (map (λ (c : GridTableColumn). c.width) (columns_of_array columns cols.now)) }
{
    let mut total = 0;
    for k in 0..columns {
        total += ColumnEntry::at(cols, k).width as u32;
    }
    total
}

// Hundredths after the point, without closing zeros.
fn render_fraction(hundredths: u32, out: &mut [u8], at: usize) -> usize
    requires { (hundredths < 100) × (at ≤ 2147483648) }
    ensures { Wrote out.old at (fraction hundredths) out.new result × (result ≤ at + 3) }
{
    if hundredths == 0 {
        return at;
    }
    let point = put(b'.', out, at);
    let tenths = put(48 + (hundredths / 10) as u8, out, point);
    if hundredths % 10 == 0 {
        return tenths;
    }
    put(48 + (hundredths % 10) as u8, out, tenths)
}

// The tag of a column.
fn render_col(share: Share, out: &mut [u8], at: usize) -> usize
    requires { at ≤ 1073741824 }
    ensures { Wrote out.old at (col_tag share) out.new result × (result ≤ at + 64) }
{
    let hundredths = share.hundredths;
    let opened = copy(b"<col style=\"width:", out, at);
    let whole = decimal(hundredths as usize / 100, out, opened);
    let end = render_fraction(hundredths % 100, out, whole);
    copy(b"%\" />\n", out, end)
}

// The tags of all columns.
fn render_cols(columns: usize, cols: &[u16], total: u32, out: &mut [u8], at: usize) -> usize
    requires { (length cols.now ≡ 2 * columns) × (columns ≤ 127) × (at ≤ 65536) }
    ensures { Wrote out.old at (flat_map (col_of total) (columns_of_array columns cols.now)) out.new result
        × (result ≤ at + 64 * columns) }
{
    let mut end = at;
    for k in 0..columns {
        let width = ColumnEntry::at(cols, k).width;
        end = render_col(share_of(width, total), out, end);
    }
    end
}

pub fn render_colgroup(
    widths: bool,
    columns: usize,
    cols: &[u16],
    out: &mut [u8],
    at: usize,
) -> usize
    requires { (length cols.now ≡ 2 * columns) × (columns ≤ 127) × (at ≤ 32768) }
    ensures { Wrote out.old at (column_group widths (columns_of_array columns cols.now)) out.new result × (result ≤ at + 16384) }
{
    if !widths {
        return at;
    }
    let total = total_width(columns, cols);
    let opened = copy(b"<colgroup>\n", out, at);
    let end = render_cols(columns, cols, total, out, opened);
    copy(b"</colgroup>\n", out, end)
}
