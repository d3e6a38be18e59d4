// The table of an input's lines, from the table call.
#![tactic(auto)]

ghost use Rattle.std.specs.Prelude.{◌≤◌, ◌≡◌, length, replicate};
ghost use Rattle.seq.specs.Lists.{sum};
ghost use Rattle.drawing.specs.RedrawCall.{table_lent};
ghost use Rattle.representation.specs.Lent.{sizes_of as sizes_lent, arrays_of};
ghost use Rattle.table.specs.Call.{sizes_of};
ghost use Rattle.input_table.specs.Told.{SizesTold, TableTold, parts_of};

use refusals::Refusal;
use representation::lent::{Drawing, Table};
use table::TableSizes;

// Arrays that hold every table.
#[derive(Drop)]
pub struct TableBuffers {
    pub columns: [u16; 254],
    pub sections: [u8; 127],
    pub cells: [u16; 5120],
    pub lengths: [u16; 16384],
    pub text: [u8; 32768],
}

impl TableBuffers {
    pub fn new() -> Self
        ensures columns { result.columns ≡ replicate 254 0 }
        ensures sections { result.sections ≡ replicate 127 0 }
        ensures cells { result.cells ≡ replicate 5120 0 }
        ensures lengths { result.lengths ≡ replicate 16384 0 }
        ensures text { result.text ≡ replicate 32768 0 }
    {
        TableBuffers {
            columns: [0; 254],
            sections: [0; 127],
            cells: [0; 5120],
            lengths: [0; 16384],
            text: [0; 32768],
        }
    }

    // The table of a drawing's lines, all at column 0, in these arrays.
    pub fn read(&mut self, lengths: &[u16], text: &[u8]) -> Result<Table<'_>, Refusal>
        requires { (length lengths.now ≤ 128) × (sum lengths.now ≡ length text.now) }
        ensures { TableTold lengths.now text.now result }
    {
        let sizes = lines_table(
            lengths,
            text,
            &mut self.columns,
            &mut self.sections,
            &mut self.cells,
            &mut self.lengths,
            &mut self.text,
        )?;
        Ok(self.held(sizes))
    }

    // The table of these sizes at their start.
    fn held(&self, sizes: TableSizes) -> Table<'_>
        requires { (sizes.columns ≤ 127) × (sizes.rows ≤ 127) × (sizes.cells ≤ 1024) × (sizes.lines ≤ 16384) × (sizes.bytes ≤ 32768) }
        ensures sizes { sizes_lent result ≡ sizes_of sizes }
        ensures parts { arrays_of result ≡ parts_of (sizes_of sizes) (table_lent self.now.columns self.now.sections self.now.cells self.now.lengths self.now.text) }
    {
        Table {
            columns: sizes.columns,
            rows: sizes.rows,
            cells: sizes.cells,
            lines: sizes.lines,
            bytes: sizes.bytes,
            column_entries: &self.columns[..2 * sizes.columns],
            sections: &self.sections[..sizes.rows],
            cell_entries: &self.cells[..5 * sizes.cells],
            lengths: &self.lengths[..sizes.lines],
            text: &self.text[..sizes.bytes],
        }
    }
}

// The table call for a drawing's lines, all at column 0, with working space as the call names it.
pub fn lines_table(
    lengths: &[u16],
    text: &[u8],
    cols: &mut [u16],
    sections: &mut [u8],
    cells: &mut [u16],
    kept_lengths: &mut [u16],
    kept_text: &mut [u8],
) -> Result<TableSizes, Refusal>
    requires agreeing { (length lengths.now ≤ 128) × (sum lengths.now ≡ length text.now) }
    requires shape { (length cols.old ≡ 254) × (length sections.old ≡ 127) × (length cells.old ≡ 5120) }
    requires lines { (length kept_lengths.old ≡ 16384) × (length kept_text.old ≡ 32768) }
    ensures { let after = table_lent cols.new sections.new cells.new kept_lengths.new kept_text.new in
        SizesTold lengths.now text.now after result }
{
    let lines = lengths.len();
    let origins = [0u16; 128];
    let mut glyphs = [0u8; 16384];
    let mut offsets = [0u16; 16384];
    let mut down = [0u8; 16384];
    let mut right = [0u8; 16384];
    let mut rects = [0u8; 4096];
    let mut starts = [0u16; 128];
    let mut counts = [0u8; 1024];
    let drawing = Drawing {
        lines,
        bytes: text.len(),
        lengths,
        columns: &origins[0..lines],
        text,
    };
    table::table(
        drawing,
        &mut glyphs,
        &mut offsets,
        &mut down,
        &mut right,
        &mut rects,
        &mut starts,
        &mut counts,
        cols,
        sections,
        cells,
        kept_lengths,
        kept_text,
    )
}
