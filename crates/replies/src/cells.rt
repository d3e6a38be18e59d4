// The cell call's answer as a struct.
ghost use Rattle.std.specs.Prelude.{◌≡◌};
ghost use Rattle.replies.specs.Refused.{answer_told};
ghost use Rattle.replies.specs.CellReply.{cell_reply_of};

use crate::refused::Numbered;

// Number 0 is acceptance; then how many cut lines were written. A refusal has its number and place,
// and 0 for the lines.
#[repr(C)]
#[derive(Clone, Copy)]
pub struct CellReply {
    pub number: usize,
    pub place: usize,
    pub lines: usize,
}

pub fn cell_reply<R: Numbered>(answer: Result<usize, R>) -> CellReply
    ensures { result ≡ cell_reply_of (answer_told R.number R.place (λ lines. lines) answer) }
{
    match answer {
        Ok(lines) => CellReply {
            number: 0,
            place: 0,
            lines,
        },
        Err(refusal) => CellReply {
            number: refusal.number(),
            place: refusal.place(),
            lines: 0,
        },
    }
}
