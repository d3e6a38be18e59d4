// A table's page, and a column's share on it.
ghost use Rattle.std.specs.Prelude.{◌≡◌};
ghost use Rattle.html.specs.Shares.{share_of};
ghost use Rattle.html.specs.PageCall.{page_answer, page_afterwards};
ghost use Rattle.html_page.specs.Call.{sizes, arrays};
ghost use Rattle.replies.specs.PageReply.{page_reply_of, share_reply_of};

use html_page::lent::PageTable;
use html_page::page;
use html_page::share::share_of;
use replies::pages::{PageReply, ShareReply, page_reply, share_reply};
use table_checks::shape::Shape;

// html_page::page.
#[unsafe(no_mangle)]
pub extern "C" fn grid_page(
    widths: bool,
    columns: usize,
    rows: usize,
    cells: usize,
    bytes: usize,
    cols: &[u16],
    sections: &[u8],
    cell_numbers: &[u16],
    inner: &[u8],
    out: &mut [u8],
) -> PageReply
    ensures { let s = sizes columns rows cells bytes in
        let t = arrays cols.now sections.now cell_numbers.now inner.now in
        (result ≡ page_reply_of (page_answer widths s t out.old)) × (out.new ≡ page_afterwards widths s t out.old) }
{
    let table = PageTable {
        shape: Shape {
            columns,
            rows,
            cells,
            column_entries: cols,
            sections,
            cell_entries: cell_numbers,
        },
        bytes,
        inner,
    };
    page_reply(page(widths, table, out))
}

// html_page::share::share_of.
#[unsafe(no_mangle)]
pub extern "C" fn grid_share(width: u16, total: u32) -> ShareReply
    ensures { result ≡ share_reply_of (share_of width total) }
{
    share_reply(share_of(width, total))
}
