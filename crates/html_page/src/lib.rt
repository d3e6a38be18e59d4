// The page of a table (html/grid_table.rs: render_grid_table), with the checks that the Rust has not.
#![tactic(auto)]

pub mod cells;
pub mod checks;
pub mod colgroup;
pub mod lent;
pub mod rows;
pub mod share;

ghost use Rattle.std.specs.Prelude.{◌≡◌, length};
ghost use Rattle.grid.specs.Answer.{accept, and_then, afterwards, over};
ghost use Rattle.html.specs.Page.{page};
ghost use Rattle.html.specs.PageCall.{page_answer, page_afterwards};
ghost use Rattle.writer.specs.Writing.{Wrote};
ghost use Rattle.html_page.specs.Call.{answer_of, sizes_of, arrays_of, IsPaged, page_of, page_within};

use crate::checks::check_page;
use crate::colgroup::render_colgroup;
use crate::lent::PageTable;
use crate::rows::render_rows;
use refusals::Refusal;
use writer::copy;

// The page, as far as the space reaches.
fn render_grid_table(widths: bool, table: PageTable<'_>, out: &mut [u8]) -> usize
    requires { IsPaged table }
    ensures { Wrote out.old 0 (page widths (page_of table.entry)) out.new result }
{
    let shape = table.shape;
    let opened = copy(b"<table>\n", out, 0);
    let grouped = render_colgroup(widths, shape.columns, shape.column_entries, out, opened);
    let end = render_rows(table, out, grouped);
    copy(b"</table>\n", out, end)
}

// A table that passed the checks up to 8: 12, and the page.
fn write_page(widths: bool, table: PageTable<'_>, out: &mut [u8]) -> Result<usize, Refusal>
    requires { IsPaged table }
    ensures answer { let bytes = page_within widths (page_of table.entry) out.old in
        answer_of result ≡ and_then bytes (λ page. accept (length page)) }
    ensures after { let before = out.old in
        out.new ≡ afterwards (page_within widths (page_of table.entry) before) (λ page. over page before) before }
{
    let mut none = [0u8; 0];
    let bytes = render_grid_table(widths, table, &mut none);
    if out.len() < bytes {
        return Err(Refusal::OutputShort);
    }
    render_grid_table(widths, table, out);
    Ok(bytes)
}

// The page of a table, with shares of its columns where widths are on: how many bytes it has.
pub fn page(widths: bool, table: PageTable<'_>, out: &mut [u8]) -> Result<usize, Refusal>
    ensures answer { answer_of result ≡ page_answer widths (sizes_of table.entry) (arrays_of table.entry) out.old }
    ensures after { out.new ≡ page_afterwards widths (sizes_of table.entry) (arrays_of table.entry) out.old }
{
    check_page(table)?;
    write_page(widths, table, out)
}
