// The listing of a drawing's lines, from the layout call's answer.
ghost use Rattle.std.specs.Prelude.{◌≤◌, ◌≡◌, length};
ghost use Rattle.seq.specs.Lists.{sum};
ghost use Rattle.grid.specs.Flat.{split_text};
ghost use Rattle.printing.specs.Printing.{Prints};
ghost use Rattle.layout_listing.specs.Listed.{listed_lines, LayoutTold};

use crate::print::table;
use layout::{LayoutSizes, layout};
use printing::refused;
use refusals::Refusal;
use representation::lent::Drawing;

// The layout of a drawing's lines, all at column 0, with working space as the call names it.
fn lines_layout(
    lengths: &[u16],
    text: &[u8],
    cols: &mut [u16],
    rows: &mut [u16],
    cells: &mut [u16],
) -> Result<LayoutSizes, Refusal>
    requires lengths_len_bound { (length lengths.now ≤ 128) × (sum lengths.now ≡ length text.now) }
    requires cols_len { (length cols.old ≡ 254) × (length rows.old ≡ 381) × (length cells.old ≡ 5120) }
    ensures { LayoutTold lengths.now text.now cols.new rows.new cells.new result }
{
    let lines = lengths.len();
    let columns = [0u16; 128];
    let mut glyphs = [0u8; 16384];
    let mut offsets = [0u16; 16384];
    let mut down = [0u8; 16384];
    let mut right = [0u8; 16384];
    let mut rects = [0u8; 4096];
    let mut ranges = [0u16; 32768];
    let drawing = Drawing {
        lines,
        bytes: text.len(),
        lengths,
        columns: &columns[0..lines],
        text,
    };
    layout(
        drawing,
        &mut glyphs,
        &mut offsets,
        &mut down,
        &mut right,
        &mut rects,
        cols,
        rows,
        cells,
        &mut ranges,
    )
}

// The listing of a drawing's lines, all at column 0.
pub fn list_lines(lengths: &[u16], text: &[u8], out: &mut [u8]) -> usize
    requires { (length lengths.now ≤ 128) × (sum lengths.now ≡ length text.now) × (131072 ≤ length out.old) }
    ensures { Prints out.new result (listed_lines (split_text lengths.now text.now)) }
{
    // They hold every layout.
    let mut cols = [0u16; 254];
    let mut rows = [0u16; 381];
    let mut cells = [0u16; 5120];
    match lines_layout(lengths, text, &mut cols, &mut rows, &mut cells) {
        Err(refusal) => refused(refusal.number(), refusal.place(), out),
        Ok(sizes) => table(sizes, lengths.len(), &cols, &rows, &cells, out),
    }
}
