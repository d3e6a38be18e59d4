// A cell on the page (html/grid_table.rs: render_grid_table_cell).
ghost use Rattle.std.specs.Prelude.{◌+◌, ◌≡◌, ◌≤◌, cond, [], ◌++◌, ltb, length};
ghost use Rattle.seq.specs.Ascii.{ascii};
ghost use Rattle.seq.specs.Decimal.{decimal};
ghost use Rattle.grid.specs.Flat.{code_section};
ghost use Rattle.html.specs.Page.{new_line, span_attribute, align_attribute, cell_tag, closing, cell_page};
ghost use Rattle.writer.specs.Writing.{Wrote};
ghost use Rattle.html_page.specs.Call.{columns_of, cell_of, IsGiven};

use crate::lent::PageTable;
use grid::{GridTableSection, TableAlignment};
use table_checks::cell_entry::CellEntry;
use table_checks::column_entry::ColumnEntry;
use writer::copy;
use writer::decimals::decimal;

// A span after the attribute's name, where it is no 1.
fn render_span(name: &[u8], span: u16, out: &mut [u8], at: usize) -> usize
    requires { (length name.now ≤ 16) × (at ≤ 2147483648) }
    ensures { let attribute = cond (ltb 1 span) (name.now ++ decimal span ++ ascii "\"") [] in
        Wrote out.old at attribute out.new result × (result ≤ at + 40) }
{
    if span <= 1 {
        return at;
    }
    let named = copy(name, out, at);
    let end = decimal(span as usize, out, named);
    copy(b"\"", out, end)
}

#[tactic(auto, unfolding(seq::specs::Ascii::ascii))]
fn render_alignment(alignment: TableAlignment, out: &mut [u8], at: usize) -> usize
    requires { at ≤ 2147483648 }
    ensures { Wrote out.old at (align_attribute alignment) out.new result × (result ≤ at + 16) }
{
    match alignment {
        TableAlignment::None => at,
        TableAlignment::Left => copy(b" align=\"left\"", out, at),
        TableAlignment::Right => copy(b" align=\"right\"", out, at),
        TableAlignment::Center => copy(b" align=\"center\"", out, at),
    }
}

// A cell's spans, the alignment of its first column, and its tag's end.
fn render_attributes(cell: CellEntry, alignment: TableAlignment, out: &mut [u8], at: usize) -> usize
    requires { at ≤ 1073741824 }
    ensures { let spans = span_attribute (ascii "colspan") cell.colspan ++ span_attribute (ascii "rowspan") cell.rowspan in
        Wrote out.old at (spans ++ align_attribute alignment ++ ascii ">") out.new result × (result ≤ at + 100) }
{
    let across = render_span(b" colspan=\"", cell.colspan, out, at);
    let down = render_span(b" rowspan=\"", cell.rowspan, out, across);
    let end = render_alignment(alignment, out, down);
    copy(b">", out, end)
}

// A cell's tag up to its attributes, in a row of this section.
#[tactic(auto, unfolding(seq::specs::Ascii::ascii))]
fn open_cell(section: GridTableSection, out: &mut [u8], at: usize) -> usize
    requires { at ≤ 1073741824 }
    ensures { Wrote out.old at (new_line ++ ascii "<" ++ cell_tag section) out.new result × (result ≤ at + 4) }
{
    match section {
        GridTableSection::Head => copy(b"\n<th", out, at),
        GridTableSection::Body => copy(b"\n<td", out, at),
        GridTableSection::Foot => copy(b"\n<td", out, at),
    }
}

#[tactic(auto, unfolding(seq::specs::Ascii::ascii))]
fn close_cell(section: GridTableSection, out: &mut [u8], at: usize) -> usize
    requires { at ≤ 2147483648 }
    ensures { Wrote out.old at (closing (cell_tag section)) out.new result × (result ≤ at + 5) }
{
    match section {
        GridTableSection::Head => copy(b"</th>", out, at),
        GridTableSection::Body => copy(b"</td>", out, at),
        GridTableSection::Foot => copy(b"</td>", out, at),
    }
}

// The section that a byte stands for.
pub fn section_of(code: u8) -> GridTableSection
    ensures { result ≡ code_section code }
{
    GridTableSection::try_from(code).unwrap_or(GridTableSection::Body)
}

// Cell k in a row of the section that a byte stands for, its inner bytes from `from` on.
pub fn render_grid_table_cell(
    table: PageTable<'_>,
    section: u8,
    k: usize,
    from: usize,
    out: &mut [u8],
    at: usize,
) -> usize
    requires { IsGiven table k from × (at ≤ 536870912) }
    ensures { Wrote out.old at (cell_page (columns_of table.entry) (code_section section) (cell_of table.entry k from)) out.new result × (result ≤ at + 65536) }
{
    let section = section_of(section);
    let cell = CellEntry::at(table.shape.cell_entries, k);
    let column = ColumnEntry::at(table.shape.column_entries, cell.column as usize);
    let opened = open_cell(section, out, at);
    let tagged = render_attributes(cell, column.alignment, out, opened);
    let to = from + cell.size as usize;
    let end = copy(&table.inner[from..to], out, tagged);
    close_cell(section, out, end)
}
