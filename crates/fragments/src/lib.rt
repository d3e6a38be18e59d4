// Cutting one line of a cell (mod.rs: cell_fragment).
#![tactic(auto)]

pub mod part;
pub mod view;

ghost use Rattle.std.specs.Prelude.{◌+◌, ◌≡◌};
ghost use Rattle.grid.specs.CutCall.{bad_range, cut_too_large, cut_numbers_answer, cut_text, cut_start};
ghost use Rattle.fragments.specs.Call.{answer_of, line_in, range_in};

use crate::part::cut_part;
use refusals::Refusal;
use text::{ByteAt, Column};
use utf8::continues_at;

const MAX_LINE_BYTES: usize = 512;

const MAX_ORIGIN: usize = 255;

const MAX_LEFT: usize = 127;

const MAX_REGISTER: usize = 65535;

// A line on which a cell has text: its text and column, its number and the table's byte where it
// starts; and the part of it between the cell's borders, with the cell's left column.
#[derive(Clone, Copy)]
pub struct CellLine<'a> {
    pub text: &'a [u8],
    pub column: Column,
    pub line: usize,
    pub table_byte: ByteAt,
    pub start: ByteAt,
    pub end: ByteAt,
    pub left: Column,
}

// Where the cut text starts and ends in the line given, and its line, byte and column.
#[derive(Clone, Copy, Debug, PartialEq, Eq)]
pub struct Cut {
    pub start: ByteAt,
    pub end: ByteAt,
    pub line: usize,
    pub byte: ByteAt,
    pub column: Column,
}

impl CellLine<'_> {
    // 13.
    #[tactic(auto, unfolding(grid::specs::CutCall::bad_range))]
    fn bad_range(&self) -> bool
        ensures { result ≡ bad_range (range_in self.now) self.now.text.now }
    {
        self.end.0 < self.start.0
            || self.text.len() < self.end.0
            || continues_at(self.text, self.start)
            || continues_at(self.text, self.end)
    }

    // 2.
    #[tactic(auto, unfolding(grid::specs::CutCall::cut_too_large))]
    fn too_large(&self) -> bool
        ensures { result ≡ cut_too_large (line_in self.now) self.now.line self.now.table_byte.0 self.now.left.0 }
    {
        MAX_LINE_BYTES < self.text.len()
            || MAX_ORIGIN < self.column.0
            || MAX_LEFT < self.left.0
            || MAX_REGISTER < self.line
            || MAX_REGISTER < self.table_byte.0
    }
}

// One line of a cell, cut.
pub fn cell_fragment(given: CellLine<'_>) -> Result<Cut, Refusal>
    ensures { let g = given.entry in
        answer_of result ≡ cut_numbers_answer (line_in g) g.line g.table_byte.0 (range_in g) g.left.0 }
{
    if given.bad_range() {
        return Err(Refusal::Contradiction);
    }
    if given.too_large() {
        return Err(Refusal::TooLarge);
    }
    let piece = cut_part(given.text, given.column, given.start, given.end, given.left);
    Ok(Cut {
        start: piece.start,
        end: piece.end,
        line: given.line,
        byte: ByteAt(given.table_byte.0 + piece.start.0),
        column: piece.column,
    })
}

// The cut text as a part of the line given, from where the call above says; the empty part at the
// line's start where it refuses.
pub fn cell_text<'a>(given: CellLine<'a>) -> &'a [u8]
    ensures { let g = given.entry in
        (result.ref_ptr.0 ≡ g.text.ref_ptr.0)
        × (result.ref_ptr.1 ≡ g.text.ref_ptr.1 + cut_start (line_in g) g.line g.table_byte.0 (range_in g) g.left.0)
        × (result.now ≡ cut_text (line_in g) g.line g.table_byte.0 (range_in g) g.left.0) }
{
    match cell_fragment(given) {
        Ok(cut) => &given.text[cut.start.0..cut.end.0],
        Err(_) => &given.text[0..0],
    }
}
