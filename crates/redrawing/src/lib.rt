// From a drawing to its redrawing: the table call, then the redraw call on what it wrote.
#![tactic(auto)]

ghost use Rattle.std.specs.Prelude.{◌*◌, ◌≤◌, ◌≡◌, length};
ghost use Rattle.grid.specs.LayoutCall.{spaces};
ghost use Rattle.grid.specs.TableCall.{table_spaces};
ghost use Rattle.representation.specs.Lent.{drawing_of, sizes_of, arrays_of};
ghost use Rattle.drawing.specs.RedrawCall.{redraw_spaces, table_lent, drawing_lent};
ghost use Rattle.drawing.specs.RoundTripCall.{table_taken};
ghost use Rattle.drawing.specs.SheetCall.{sheet_spaces, sheet_space_short, redraw_step, sheet_answer, sheet_afterwards};
ghost use Rattle.table.specs.Call.{sizes_of as written_sizes};
ghost use Rattle.cm.specs.Late.{answer_of};
ghost use Rattle.redrawing.specs.Sheet.{sheet_of, Filled};

use cm::draw::DrawingSizes;
use cm::redraw;
use refusals::Refusal;
use representation::lent::{Drawing, Table};
use table::{TableSizes, table};

const MAX_COLUMN_ENTRIES: usize = 254;

const MAX_ROWS: usize = 127;

const MAX_CELL_ENTRIES: usize = 5120;

const MAX_TABLE_LINES: usize = 16384;

const MAX_BYTES: usize = 32768;

// A refusal, of the reading or of the redrawing.
#[derive(Clone, Copy, Debug, PartialEq, Eq)]
pub enum SheetRefusal {
    Unread(Refusal),
    Undrawn(Refusal),
}

// 13, of the arrays between the two calls.
#[tactic(auto, using(std::proofs::lemmas::Bool::Decides::nat_tests), unfolding(drawing::specs::SheetCall::sheet_space_short))]
fn space_short(cols: &[u16], sections: &[u8], cells: &[u16], lengths: &[u16], text: &[u8]) -> bool
    ensures { result ≡ sheet_space_short (sheet_spaces cols.now sections.now cells.now lengths.now text.now) }
{
    cols.len() < MAX_COLUMN_ENTRIES
        || sections.len() < MAX_ROWS
        || cells.len() < MAX_CELL_ENTRIES
        || lengths.len() < MAX_TABLE_LINES
        || text.len() < MAX_BYTES
}

// The table of these sizes that the first entries of the arrays hold.
#[tactic(auto, unfolding(drawing::specs::RoundTripCall::table_taken))]
fn table_held<'a>(
    sizes: TableSizes,
    cols: &'a [u16],
    sections: &'a [u8],
    cells: &'a [u16],
    lengths: &'a [u16],
    text: &'a [u8],
) -> Table<'a>
    requires { Filled (written_sizes sizes) (table_lent cols.now sections.now cells.now lengths.now text.now) }
    ensures { let held = written_sizes sizes in
        let lent = table_lent cols.now sections.now cells.now lengths.now text.now in
        (sizes_of result ≡ held) × (arrays_of result ≡ table_taken held lent) }
{
    Table {
        columns: sizes.columns,
        rows: sizes.rows,
        cells: sizes.cells,
        lines: sizes.lines,
        bytes: sizes.bytes,
        column_entries: &cols[..2 * sizes.columns],
        sections: &sections[..sizes.rows],
        cell_entries: &cells[..5 * sizes.cells],
        lengths: &lengths[..sizes.lines],
        text: &text[..sizes.bytes],
    }
}

// The redraw call's answer as this call's.
fn redraw_step(answer: Result<DrawingSizes, Refusal>) -> Result<DrawingSizes, SheetRefusal>
    ensures { sheet_of result ≡ redraw_step (answer_of answer) }
{
    answer.map_err(SheetRefusal::Undrawn)
}

// The redrawing of a drawing at an origin. Working space: that of the table call; for the table between
// cols of 254 entries, sections of 127, cells of 5,120, table_lengths of 16,384 and table_text of
// 32,768; and that of the redraw call, with frames as its rects.
pub fn redraw_sheet(
    origin: usize,
    drawing: Drawing<'_>,
    glyphs: &mut [u8],
    offsets: &mut [u16],
    down: &mut [u8],
    right: &mut [u8],
    rects: &mut [u8],
    starts: &mut [u16],
    counts: &mut [u8],
    cols: &mut [u16],
    sections: &mut [u8],
    cells: &mut [u16],
    table_lengths: &mut [u16],
    table_text: &mut [u8],
    line_starts: &mut [u16],
    line_ends: &mut [u16],
    firsts: &mut [u16],
    heights: &mut [u16],
    wides: &mut [u16],
    frames: &mut [u8],
    canvas: &mut [u16],
    out_lengths: &mut [u16],
    out_columns: &mut [u16],
    out_text: &mut [u8],
) -> Result<DrawingSizes, SheetRefusal>
    ensures { let space = spaces glyphs.old offsets.old down.old right.old rects.old in
        let more = table_spaces starts.old counts.old in
        let between = sheet_spaces cols.old sections.old cells.old table_lengths.old
        table_text.old in
        let work = redraw_spaces line_starts.old line_ends.old firsts.old heights.old
        wides.old frames.old canvas.old in
        let given = drawing_of drawing.entry in
        let before = drawing_lent out_lengths.old out_columns.old out_text.old in
        let after = drawing_lent out_lengths.new out_columns.new out_text.new in
        (sheet_of result ≡ sheet_answer space more between work given origin before)
        × (after ≡ sheet_afterwards space more between work given origin before) }
{
    if space_short(cols, sections, cells, table_lengths, table_text)
        || cm::space_short(
            line_starts,
            line_ends,
            firsts,
            heights,
            wides,
            frames,
            canvas,
        )
    {
        return Err(SheetRefusal::Unread(Refusal::Contradiction));
    }
    let sizes = match table(
        drawing,
        glyphs,
        offsets,
        down,
        right,
        rects,
        starts,
        counts,
        cols,
        sections,
        cells,
        table_lengths,
        table_text,
    ) {
        Ok(sizes) => sizes,
        Err(refusal) => return Err(SheetRefusal::Unread(refusal)),
    };
    let held = table_held(sizes, cols, sections, cells, table_lengths, table_text);
    redraw_step(redraw(
        origin,
        held,
        line_starts,
        line_ends,
        firsts,
        heights,
        wides,
        frames,
        canvas,
        out_lengths,
        out_columns,
        out_text,
    ))
}
