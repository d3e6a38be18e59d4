// The inner bytes of cells: their lines, escaped and parted by line breaks. Each function gives the
// place after what it wrote; what does not fit is counted alone.
ghost use Rattle.std.specs.Prelude.{◌+◌, ◌*◌, ◌≤◌, ◌<◌, ◌≡◌, cond, [], eqb, length};
ghost use Rattle.seq.specs.Ascii.{ascii};
ghost use Rattle.seq.specs.Lists.{sum};
ghost use Rattle.grid.specs.Flat.{split_text, cells_of_array};
ghost use Rattle.html.specs.Escaping.{escape_byte, escape, inner_of};
ghost use Rattle.representation.specs.TableIn.{counts_in};
ghost use Rattle.writer.specs.Writing.{Wrote};
ghost use Rattle.page_listing.specs.Inner.{InnerTold};

use layout::cell_entries::write_cell;
use representation::lent::Table;
use table_checks::cell_entry::CellEntry;
use writer::{copy, put};

const MAX_BYTES: usize = 32768;

// Where the next part goes, and how many bytes of the text were taken.
#[derive(Clone, Copy)]
pub struct Escaped {
    pub at: usize,
    pub bytes: usize,
}

fn escape_byte(b: u8, out: &mut [u8], at: usize) -> usize
    requires { at ≤ 2147483648 }
    ensures { Wrote out.old at (escape_byte b) out.new result × (result ≤ at + 5) }
{
    match b {
        b'&' => copy(b"&amp;", out, at),
        b'<' => copy(b"&lt;", out, at),
        b'>' => copy(b"&gt;", out, at),
        _ => put(b, out, at),
    }
}

fn escape_line(line: &[u8], out: &mut [u8], at: usize) -> usize
    requires { (length line.now ≤ 32768) × (at ≤ 1073741824) }
    ensures { Wrote out.old at (escape line.now) out.new result × (result ≤ at + 5 * length line.now) }
{
    let mut end = at;
    for b in line {
        end = escape_byte(*b, out, end);
    }
    end
}

// Before line i of a cell: a line break, where it is not the first.
fn break_before(i: usize, out: &mut [u8], at: usize) -> usize
    requires { at ≤ 1073741824 }
    ensures { Wrote out.old at (cond (eqb i 0) [] (ascii "<br />\n")) out.new result × (result ≤ at + 7) }
{
    if i == 0 {
        return at;
    }
    copy(b"<br />\n", out, at)
}

// The lines of one cell, of these lengths from the text's start on.
fn escape_lines(lengths: &[u16], text: &[u8], out: &mut [u8], at: usize) -> Escaped
    requires { (length lengths.now ≤ 16384) × (length text.now ≤ 32768) × (sum lengths.now ≤ length text.now) × (at ≤ 536870912) }
    ensures { let inner = inner_of (split_text lengths.now text.now) in
        Wrote out.old at inner out.new result.at × (result.at ≤ at + 278528) × (result.bytes ≡ sum lengths.now) }
{
    let mut used = 0;
    let mut end = at;
    for (i, length) in lengths.iter().enumerate() {
        let stop = used + *length as usize;
        let parted = break_before(i, out, end);
        end = escape_line(&text[used..stop], out, parted);
        used = stop;
    }
    Escaped {
        at: end,
        bytes: used,
    }
}

// The inner bytes of all cells back to back, and in `entries` each cell's row, column, colspan,
// rowspan and the length of its inner bytes, until they pass the limit: how many there are.
pub fn escape_cells(table: Table<'_>, entries: &mut [u16], inner: &mut [u8]) -> usize
    requires cells { (table.cells ≤ 1024) × (length table.cell_entries.now ≡ 5 * table.cells)
        × (sum (counts_in table.cells table.cell_entries.now) ≡ length table.lengths.now) }
    requires lines { (length table.lengths.now ≤ 16384) × (length table.text.now ≤ 32768) × (sum table.lengths.now ≡ length table.text.now) }
    requires room { (5 * table.cells ≤ length entries.old) × (length inner.old ≡ 32768) }
    ensures { let t = table.entry in
        InnerTold (cells_of_array t.cells t.cell_entries.now (split_text t.lengths.now t.text.now)) entries.new inner.new result }
{
    let mut line = 0;
    let mut used = 0;
    let mut end = 0;
    for k in 0..table.cells {
        let cell = CellEntry::at(table.cell_entries, k);
        let stop = line + cell.size as usize;
        let escaped = escape_lines(&table.lengths[line..stop], &table.text[used..], inner, end);
        if MAX_BYTES < escaped.at {
            return escaped.at;
        }
        let size = (escaped.at - end) as u16;
        let numbers = [cell.row, cell.column, cell.colspan, cell.rowspan, size];
        write_cell(numbers, 5 * k, entries);
        line = stop;
        used += escaped.bytes;
        end = escaped.at;
    }
    end
}
