// The cells of a table, printed into a buffer. Each function gives the place after what it wrote.
ghost use Rattle.std.specs.Prelude.{◌+◌, ◌*◌, ◌≤◌, length};
ghost use Rattle.grid.specs.CellListing.{text_line};
ghost use Rattle.printing.specs.Printing.{Put, Prints};
ghost use Rattle.table_listing.specs.Printing.{TextPut, cells_of, table_listed};

use printing::{byte, cell_line, copy, entry, wide, words};
use representation::lent::Table;

// Where the next part goes, and how many bytes of the text were written.
#[derive(Clone, Copy)]
pub struct Written {
    pub at: usize,
    pub bytes: usize,
}

// Two spaces, the line's bytes and its end.
fn text_line(text: &[u8], out: &mut [u8], at: usize) -> usize
    requires { at + (length text.now + 3) ≤ length out.old }
    ensures { Put (length text.now + 3) out.old out.new at result (text_line text.now) }
{
    let end = copy(b"  ", out, at);
    let end = copy(text, out, end);
    byte(b'\n', out, end)
}

// The lines of these lengths, back to back at the start of `text`, as far as it goes.
fn text_lines(lengths: &[u16], text: &[u8], out: &mut [u8], at: usize) -> Written
    requires { at + (3 * length lengths.now + length text.now) ≤ length out.old }
    ensures { TextPut lengths.now text.now out.old out.new at result }
{
    let mut used = 0;
    let mut end = at;
    for length in lengths {
        let stop = used + wide(*length).min(text.len() - used);
        end = text_line(&text[used..stop], out, end);
        used = stop;
    }
    Written {
        at: end,
        bytes: used,
    }
}

// Each cell, with as many of the lines that are left as it has.
fn cell_lines(table: Table<'_>, out: &mut [u8], at: usize) -> usize
    requires few { (table.cells ≤ 1024) × (length table.text.now ≤ 32768) }
    requires room { at + (110 * table.cells + (3 * length table.lengths.now + length table.text.now)) ≤ length out.old }
    ensures { let t = table.entry in
        let printed = cells_of t.cells t.cell_entries.now t.lengths.now t.text.now in
        Put (110 * t.cells + (3 * length t.lengths.now + length t.text.now)) out.old out.new at result printed }
{
    let Table {
        cells: count,
        cell_entries: cells,
        lengths,
        text,
        ..
    } = table;
    let mut line = 0;
    let mut used = 0;
    let mut end = at;
    for i in 0..count {
        let more = entry(cells, 5 * i + 4).min(lengths.len() - line);
        end = cell_line(cells, i, more, out, end);
        let stop = line + more;
        let written = text_lines(&lengths[line..stop], &text[used..], out, end);
        end = written.at;
        used += written.bytes;
        line = stop;
    }
    end
}

// The sizes of an accepted table, and its cells.
pub fn table_cells(table: Table<'_>, out: &mut [u8]) -> usize
    requires few { table.cells ≤ 1024 }
    requires short { (length table.lengths.now ≤ 16384) × (length table.text.now ≤ 32768) }
    requires room { 196608 ≤ length out.old }
    ensures { let t = table.entry in
        Prints out.new result (table_listed t.columns t.rows t.cells t.cell_entries.now t.lengths.now t.text.now) }
{
    let sizes = [
        table.columns,
        table.rows,
        table.cells,
        table.lengths.len(),
        table.text.len(),
    ];
    let end = words(b"table", &sizes, out, 0);
    let end = byte(b'\n', out, end);
    cell_lines(table, out, end)
}
