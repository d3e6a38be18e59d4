// The cells of a drawing's lines, from the table call's answer.
ghost use Rattle.std.specs.Prelude.{◌≤◌, ◌≡◌, length};
ghost use Rattle.seq.specs.Lists.{sum};
ghost use Rattle.grid.specs.Flat.{split_text};
ghost use Rattle.printing.specs.Printing.{Prints};
ghost use Rattle.table_listing.specs.Listed.{lines_listed};

use crate::print::table_cells;
use input_table::TableBuffers;
use printing::refused;

// The cells of a drawing's lines, all at column 0.
pub fn list_lines(lengths: &[u16], text: &[u8], out: &mut [u8]) -> usize
    requires { (length lengths.now ≤ 128) × (sum lengths.now ≡ length text.now) × (196608 ≤ length out.old) }
    ensures { Prints out.new result (lines_listed (split_text lengths.now text.now)) }
{
    let mut buffers = TableBuffers::new();
    match buffers.read(lengths, text) {
        Err(refusal) => refused(refusal.number(), refusal.place(), out),
        Ok(table) => table_cells(table, out),
    }
}
