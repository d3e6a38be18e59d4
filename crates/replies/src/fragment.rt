// The cutting call's answer as a struct.
ghost use Rattle.std.specs.Prelude.{◌≡◌};
ghost use Rattle.fragments.specs.Call.{numbers_of};
ghost use Rattle.replies.specs.Refused.{answer_told};
ghost use Rattle.replies.specs.CutReply.{cut_reply_of};

use crate::refused::Numbered;
use fragments::Cut;

// Number 0 is acceptance; then the cut text is the part of the line from `start` to `end`, with its
// line, byte and column. A refusal has its number and place, and 0 for the rest.
#[repr(C)]
#[derive(Clone, Copy)]
pub struct CutReply {
    pub number: usize,
    pub place: usize,
    pub start: usize,
    pub end: usize,
    pub line: usize,
    pub byte: usize,
    pub column: usize,
}

pub fn cut_reply<R: Numbered>(answer: Result<Cut, R>) -> CutReply
    ensures { result ≡ cut_reply_of (answer_told R.number R.place numbers_of answer) }
{
    match answer {
        Ok(cut) => CutReply {
            number: 0,
            place: 0,
            start: cut.start.0,
            end: cut.end.0,
            line: cut.line,
            byte: cut.byte.0,
            column: cut.column.0,
        },
        Err(refusal) => CutReply {
            number: refusal.number(),
            place: refusal.place(),
            start: 0,
            end: 0,
            line: 0,
            byte: 0,
            column: 0,
        },
    }
}
