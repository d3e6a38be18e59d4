// The answers of the register calls as structs.
ghost use Rattle.std.specs.Prelude.{◌≡◌};
ghost use Rattle.line_ends.specs.Search.{option_of};
ghost use Rattle.replies.specs.Refused.{answer_told};
ghost use Rattle.replies.specs.LineEndReply.{add_reply_of, find_reply_of, remap_reply_of};

use crate::refused::Numbered;
use sourcepos::CellLineEnd;

// Number 0 is acceptance; then how many ends the register holds. A refusal has its number and place,
// and 0 for the count.
#[repr(C)]
#[derive(Clone, Copy)]
pub struct AddReply {
    pub number: usize,
    pub place: usize,
    pub count: usize,
}

pub fn add_reply<R: Numbered>(answer: Result<usize, R>) -> AddReply
    ensures { result ≡ add_reply_of (answer_told R.number R.place (λ count. count) answer) }
{
    match answer {
        Ok(count) => AddReply {
            number: 0,
            place: 0,
            count,
        },
        Err(refusal) => AddReply {
            number: refusal.number(),
            place: refusal.place(),
            count: 0,
        },
    }
}

// Number 0 is acceptance; then `found` is 1 and `eol` that of the end, or both are 0 where none
// reaches. A refusal has its number and place, and 0 for the rest.
#[repr(C)]
#[derive(Clone, Copy)]
pub struct FindReply {
    pub number: usize,
    pub place: usize,
    pub found: usize,
    pub eol: u32,
}

pub fn find_reply<R: Numbered>(answer: Result<Option<u32>, R>) -> FindReply
    ensures { result ≡ find_reply_of (answer_told R.number R.place option_of answer) }
{
    match answer {
        Ok(Some(eol)) => FindReply {
            number: 0,
            place: 0,
            found: 1,
            eol,
        },
        Ok(None) => FindReply {
            number: 0,
            place: 0,
            found: 0,
            eol: 0,
        },
        Err(refusal) => FindReply {
            number: refusal.number(),
            place: refusal.place(),
            found: 0,
            eol: 0,
        },
    }
}

// Number 0 is acceptance; then the end as it was moved. A refusal has its number and place, and 0 for
// the rest.
#[repr(C)]
#[derive(Clone, Copy)]
pub struct RemapReply {
    pub number: usize,
    pub place: usize,
    pub line: u32,
    pub start: u32,
    pub eol: u32,
}

pub fn remap_reply<R: Numbered>(answer: Result<CellLineEnd, R>) -> RemapReply
    ensures { result ≡ remap_reply_of (answer_told R.number R.place (λ end. end) answer) }
{
    match answer {
        Ok(end) => RemapReply {
            number: 0,
            place: 0,
            line: end.line,
            start: end.start,
            eol: end.eol,
        },
        Err(refusal) => RemapReply {
            number: refusal.number(),
            place: refusal.place(),
            line: 0,
            start: 0,
            eol: 0,
        },
    }
}
