// The answers of the positions calls as structs.
ghost use Rattle.std.specs.Prelude.{◌≡◌};
ghost use Rattle.positions.specs.Answer.{positions_found};
ghost use Rattle.positions.specs.Spans.{sourcepos_of};
ghost use Rattle.replies.specs.Refused.{answer_told};
ghost use Rattle.replies.specs.PositionsReply.{positions_reply_of};
ghost use Rattle.replies.specs.CellPositionReply.{cell_position_reply_of};

use crate::refused::Numbered;
use positions::PositionsFound;
use positions::span::Sourcepos;

// Number 0 is acceptance; then the table's position, and how many rows and cells were written. A
// refusal has its number and place, and 0 for the rest.
#[repr(C)]
#[derive(Clone, Copy)]
pub struct PositionsReply {
    pub number: usize,
    pub place: usize,
    pub start_line: u32,
    pub start_column: u32,
    pub end_line: u32,
    pub end_column: u32,
    pub rows: usize,
    pub cells: usize,
}

pub fn positions_reply<R: Numbered>(answer: Result<PositionsFound, R>) -> PositionsReply
    ensures { result ≡ positions_reply_of (answer_told R.number R.place positions_found answer) }
{
    match answer {
        Ok(found) => PositionsReply {
            number: 0,
            place: 0,
            start_line: found.table.start_line,
            start_column: found.table.start_column,
            end_line: found.table.end_line,
            end_column: found.table.end_column,
            rows: found.rows,
            cells: found.cells,
        },
        Err(refusal) => PositionsReply {
            number: refusal.number(),
            place: refusal.place(),
            start_line: 0,
            start_column: 0,
            end_line: 0,
            end_column: 0,
            rows: 0,
            cells: 0,
        },
    }
}

// Number 0 is acceptance; then the cell's position. A refusal has its number and place, and 0 for
// the rest.
#[repr(C)]
#[derive(Clone, Copy)]
pub struct CellPositionReply {
    pub number: usize,
    pub place: usize,
    pub start_line: u32,
    pub start_column: u32,
    pub end_line: u32,
    pub end_column: u32,
}

pub fn cell_position_reply<R: Numbered>(answer: Result<Sourcepos, R>) -> CellPositionReply
    ensures { result ≡ cell_position_reply_of (answer_told R.number R.place sourcepos_of answer) }
{
    match answer {
        Ok(position) => CellPositionReply {
            number: 0,
            place: 0,
            start_line: position.start_line,
            start_column: position.start_column,
            end_line: position.end_line,
            end_column: position.end_column,
        },
        Err(refusal) => CellPositionReply {
            number: refusal.number(),
            place: refusal.place(),
            start_line: 0,
            start_column: 0,
            end_line: 0,
            end_column: 0,
        },
    }
}
