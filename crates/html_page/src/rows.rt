// The rows of a page (html/grid_table.rs: render_grid_table_row). Cells stand in order of row, so that
// rows and cells are one walk: each row goes on from the cell after the last one's.
ghost use Rattle.std.specs.Prelude.{◌+◌, ◌*◌, ◌≤◌, ◌<◌, ◌≡◌, true, eqb, ltb, length, get_or};
ghost use mathlib.Core.List.{◌++◌, map, flat_map};
ghost use Rattle.seq.specs.Lists.{up_to, all, select};
ghost use Rattle.seq.specs.Ascii.{ascii};
ghost use Rattle.grid.specs.Values.{TableCell, Table};
ghost use Rattle.grid.specs.Flat.{code_section};
ghost use Rattle.html.specs.Page.{section_tag, opening, closing, new_line, when_edge, section_of, opens_section, closes_section, cell_page, row_page};
ghost use Rattle.html.specs.PageCall.{page_cells};
ghost use Rattle.writer.specs.Writing.{Wrote};
ghost use Rattle.html_page.specs.Call.{columns_of, page_of, IsCelled, IsStanding};

use crate::cells::{render_grid_table_cell, section_of};
use crate::lent::PageTable;
use grid::GridTableSection;
use writer::copy;

// The next cell, where its inner bytes start, and the place after what is written.
#[derive(Clone, Copy)]
pub struct Reached {
    pub k: usize,
    pub from: usize,
    pub at: usize,
}

// Is a row its section's first?
fn starts_section(sections: &[u8], row: usize) -> bool
    requires { (row < length sections.now) × (all (λ code. ltb code 3) sections.now ≡ true) }
    ensures { (t : Table) → t.sections ≡ map code_section sections.now → result ≡ opens_section t row }
{
    row == 0 || sections[row - 1] != sections[row]
}

// Is a row its section's last?
fn ends_section(sections: &[u8], row: usize) -> bool
    requires { (row < length sections.now) × (all (λ code. ltb code 3) sections.now ≡ true) }
    ensures { (t : Table) → t.sections ≡ map code_section sections.now → result ≡ closes_section t row }
{
    sections.len() <= row + 1 || sections[row] != sections[row + 1]
}

#[tactic(auto, unfolding(seq::specs::Ascii::ascii))]
fn open_section(section: GridTableSection, out: &mut [u8], at: usize) -> usize
    requires { at ≤ 2147483648 }
    ensures { Wrote out.old at (opening (section_tag section) ++ new_line) out.new result × (result ≤ at + 8) }
{
    match section {
        GridTableSection::Head => copy(b"<thead>\n", out, at),
        GridTableSection::Body => copy(b"<tbody>\n", out, at),
        GridTableSection::Foot => copy(b"<tfoot>\n", out, at),
    }
}

#[tactic(auto, unfolding(seq::specs::Ascii::ascii))]
fn close_section(section: GridTableSection, out: &mut [u8], at: usize) -> usize
    requires { at ≤ 2147483648 }
    ensures { Wrote out.old at (closing (section_tag section) ++ new_line) out.new result × (result ≤ at + 9) }
{
    match section {
        GridTableSection::Head => copy(b"</thead>\n", out, at),
        GridTableSection::Body => copy(b"</tbody>\n", out, at),
        GridTableSection::Foot => copy(b"</tfoot>\n", out, at),
    }
}

// What stands before a row's cells.
fn open_row(sections: &[u8], row: usize, out: &mut [u8], at: usize) -> usize
    requires { (row < length sections.now) × (all (λ code. ltb code 3) sections.now ≡ true) × (at ≤ 1073741824) }
    ensures { ((t : Table) → t.sections ≡ map code_section sections.now
        → Wrote out.old at (when_edge (opens_section t row) (opening (section_tag (section_of t row)) ++ new_line) ++ ascii "<tr>") out.new result)
        × (result ≤ at + 12) }
{
    if !starts_section(sections, row) {
        return copy(b"<tr>", out, at);
    }
    let opened = open_section(section_of(sections[row]), out, at);
    copy(b"<tr>", out, opened)
}

// What stands after them.
fn close_row(sections: &[u8], row: usize, out: &mut [u8], at: usize) -> usize
    requires { (row < length sections.now) × (all (λ code. ltb code 3) sections.now ≡ true) × (at ≤ 1073741824) }
    ensures { ((t : Table) → t.sections ≡ map code_section sections.now
        → Wrote out.old at
        (new_line ++ ascii "</tr>" ++ when_edge (closes_section t row) (new_line ++ closing (section_tag (section_of t row))) ++ new_line) out.new result)
        × (result ≤ at + 16) }
{
    let closed = copy(b"\n</tr>\n", out, at);
    if !ends_section(sections, row) {
        return closed;
    }
    close_section(section_of(sections[row]), out, closed)
}

// The cells of a row, the first of them the next cell.
fn render_cells(
    table: PageTable<'_>,
    row: usize,
    section: u8,
    first: Reached,
    out: &mut [u8],
) -> Reached
    requires celled { IsCelled table × IsStanding table row row first.k first.from }
    requires low { (row ≤ 127) × (first.at ≤ 49152 + 65536 * first.k + 64 * row + 12) }
    ensures { let t = table.entry in
        let held = select (λ (c : TableCell). eqb c.row row) (page_cells t.shape.cells t.shape.cell_entries.now t.inner.now) in
        Wrote out.old first.at (flat_map (cell_page (columns_of t) (code_section section)) held) out.new result.at
        × IsStanding t (row + 1) (row + 1) result.k result.from × (result.at ≤ 49152 + 65536 * result.k + 64 * row + 12) }
{
    let cells = table.shape.cell_entries;
    let mut from = first.from;
    let mut at = first.at;
    for k in first.k..table.shape.cells {
        if cells[5 * k] as usize != row {
            return Reached { k, from, at };
        }
        at = render_grid_table_cell(table, section, k, from, out, at);
        from += cells[5 * k + 4] as usize;
    }
    Reached {
        k: table.shape.cells,
        from,
        at,
    }
}

// A row, the first of its cells the next cell.
fn render_grid_table_row(
    table: PageTable<'_>,
    row: usize,
    first: Reached,
    out: &mut [u8],
) -> Reached
    requires celled { IsCelled table × IsStanding table row row first.k first.from }
    requires sections { let s = table.shape.sections.now in
        (row < length s) × (length s ≤ 127) × (all (λ code. ltb code 3) s ≡ true) }
    requires low { first.at ≤ 49152 + 65536 * first.k + 64 * row }
    ensures { let t = table.entry in
        Wrote out.old first.at (row_page (page_of t) row) out.new result.at
        × IsStanding t (row + 1) (row + 1) result.k result.from × (result.at ≤ 49152 + 65536 * result.k + 64 * (row + 1)) }
{
    let sections = table.shape.sections;
    let opened = Reached {
        at: open_row(sections, row, out, first.at),
        ..first
    };
    let held = render_cells(table, row, sections[row], opened, out);
    Reached {
        at: close_row(sections, row, out, held.at),
        ..held
    }
}

// All rows.
pub fn render_rows(table: PageTable<'_>, out: &mut [u8], at: usize) -> usize
    requires celled { IsCelled table × (at ≤ 49152) }
    requires sections { let s = table.shape.sections.now in
        (length s ≤ 127) × (all (λ code. ltb code 3) s ≡ true) }
    ensures { let t = page_of table.entry in
        Wrote out.old at (flat_map (row_page t) (up_to (length table.entry.shape.sections.now))) out.new result × (result ≤ 536870912) }
{
    let mut reached = Reached { k: 0, from: 0, at };
    for row in 0..table.shape.sections.len() {
        reached = render_grid_table_row(table, row, reached, out);
    }
    reached.at
}
