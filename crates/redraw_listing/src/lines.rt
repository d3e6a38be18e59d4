// The redrawing of a drawing's lines, from the answers of the table call and the redraw call.
ghost use Rattle.std.specs.Prelude.{◌≤◌, ◌≡◌, false, length};
ghost use Rattle.seq.specs.Lists.{sum};
ghost use Rattle.grid.specs.Flat.{split_text, table_contradicts, table_of_arrays};
ghost use Rattle.drawing.specs.Redraw.{redraw};
ghost use Rattle.representation.specs.Lent.{sizes_of, arrays_of};
ghost use Rattle.drawing.specs.Listing.{redraw_listed};
ghost use Rattle.printing.specs.Printing.{Prints};
ghost use Rattle.redraw_listing.specs.Told.{lines_redrawn, DrawingTold};

use crate::print::print_lines;
use cm::draw::DrawingSizes;
use input_table::TableBuffers;
use printing::refused;
use refusals::Refusal;
use representation::lent::Table;

// The drawing of a table at origin 0, with working space as the call names it.
fn draw_lines(
    table: Table<'_>,
    out_lengths: &mut [u16],
    out_text: &mut [u8],
) -> Result<DrawingSizes, Refusal>
    requires agreeing { table_contradicts (sizes_of table) (arrays_of table) ≡ false }
    requires room { (length out_lengths.old ≡ 128) × (length out_text.old ≡ 32768) }
    ensures { let drawing = redraw 0 (table_of_arrays (sizes_of table.entry) (arrays_of table.entry)) in
        DrawingTold drawing out_lengths.new out_text.new result }
{
    let mut starts = [0u16; 16384];
    let mut ends = [0u16; 16384];
    let mut firsts = [0u16; 1024];
    let mut heights = [0u16; 1024];
    let mut wides = [0u16; 1024];
    let mut rects = [0u8; 4096];
    let mut canvas = [0u16; 16384];
    let mut out_columns = [0u16; 128];
    cm::redraw(
        0,
        table,
        &mut starts,
        &mut ends,
        &mut firsts,
        &mut heights,
        &mut wides,
        &mut rects,
        &mut canvas,
        out_lengths,
        &mut out_columns,
        out_text,
    )
}

// The drawing of a table at origin 0, printed.
fn redraw_table(table: Table<'_>, out: &mut [u8]) -> usize
    requires agreeing { table_contradicts (sizes_of table) (arrays_of table) ≡ false }
    requires room { 131072 ≤ length out.old }
    ensures { Prints out.new result (redraw_listed (redraw 0 (table_of_arrays (sizes_of table.entry) (arrays_of table.entry)))) }
{
    let mut out_lengths = [0u16; 128];
    let mut out_text = [0u8; 32768];
    match draw_lines(table, &mut out_lengths, &mut out_text) {
        Ok(drawn) => print_lines(&out_lengths[..drawn.lines], &out_text[..drawn.bytes], out),
        Err(refusal) => refused(refusal.number(), refusal.place(), out),
    }
}

// The redrawing of a drawing's lines, all at column 0.
pub fn redraw_lines(lengths: &[u16], text: &[u8], out: &mut [u8]) -> usize
    requires { (length lengths.now ≤ 128) × (sum lengths.now ≡ length text.now) × (131072 ≤ length out.old) }
    ensures { Prints out.new result (lines_redrawn (split_text lengths.now text.now)) }
{
    let mut buffers = TableBuffers::new();
    match buffers.read(lengths, text) {
        Ok(table) => redraw_table(table, out),
        Err(refusal) => refused(refusal.number(), refusal.place(), out),
    }
}
