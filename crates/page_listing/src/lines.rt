// The page of a drawing's lines, from the answers of the table call and the page call.
ghost use Rattle.std.specs.Prelude.{◌≤◌, ◌≡◌, false, length};
ghost use Rattle.seq.specs.Lists.{sum};
ghost use Rattle.grid.specs.Flat.{split_text, table_contradicts, table_of_arrays};
ghost use Rattle.drawing.specs.Redraw.{table_empty};
ghost use Rattle.representation.specs.Lent.{sizes_of, arrays_of};
ghost use Rattle.printing.specs.Printing.{Prints};
ghost use Rattle.page_listing.specs.Paged.{table_paged, lines_paged};

use crate::escape::escape_cells;
use html_page::lent::PageTable;
use input_table::TableBuffers;
use printing::refused;
use representation::lent::Table;
use table_checks::shape::Shape;

// The page of a table that was read.
fn page_table(widths: bool, table: Table<'_>, out: &mut [u8]) -> usize
    requires agrees { table_contradicts (sizes_of table) (arrays_of table) ≡ false }
    requires some { table_empty (table_of_arrays (sizes_of table) (arrays_of table)) ≡ false }
    requires room { (table.cells ≤ 1024) × (table.lines ≤ 16384) × (table.bytes ≤ 32768) × (196608 ≤ length out.old) }
    ensures { Prints out.new result (table_paged widths (table_of_arrays (sizes_of table.entry) (arrays_of table.entry))) }
{
    let mut entries = [0u16; 5120];
    let mut inner = [0u8; 32768];
    let size = escape_cells(table, &mut entries, &mut inner);
    if inner.len() < size {
        return refused(2, 0, out);
    }
    let escaped = PageTable {
        shape: Shape {
            columns: table.columns,
            rows: table.rows,
            cells: table.cells,
            column_entries: table.column_entries,
            sections: table.sections,
            cell_entries: &entries[0..5 * table.cells],
        },
        bytes: size,
        inner: &inner[0..size],
    };
    match html_page::page(widths, escaped, out) {
        Err(refusal) => refused(refusal.number(), refusal.place(), out),
        Ok(end) => end,
    }
}

// The page of a drawing's lines, all at column 0.
pub fn page_lines(widths: bool, lengths: &[u16], text: &[u8], out: &mut [u8]) -> usize
    requires { (length lengths.now ≤ 128) × (sum lengths.now ≡ length text.now) × (196608 ≤ length out.old) }
    ensures { Prints out.new result (lines_paged widths (split_text lengths.now text.now)) }
{
    let mut buffers = TableBuffers::new();
    match buffers.read(lengths, text) {
        Err(refusal) => refused(refusal.number(), refusal.place(), out),
        Ok(table) => page_table(widths, table, out),
    }
}
