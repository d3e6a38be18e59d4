// The page call's answer and a share as structs.
ghost use Rattle.std.specs.Prelude.{◌≡◌};
ghost use Rattle.replies.specs.Refused.{answer_told};
ghost use Rattle.replies.specs.PageReply.{page_reply_of, share_reply_of};

use crate::refused::Numbered;
use html::Share;

// Number 0 is acceptance; then how many bytes the page has. A refusal has its number and place, and 0
// for the bytes.
#[repr(C)]
#[derive(Clone, Copy)]
pub struct PageReply {
    pub number: usize,
    pub place: usize,
    pub bytes: usize,
}

pub fn page_reply<R: Numbered>(answer: Result<usize, R>) -> PageReply
    ensures { result ≡ page_reply_of (answer_told R.number R.place (λ bytes. bytes) answer) }
{
    match answer {
        Ok(bytes) => PageReply {
            number: 0,
            place: 0,
            bytes,
        },
        Err(refusal) => PageReply {
            number: refusal.number(),
            place: refusal.place(),
            bytes: 0,
        },
    }
}

// A share in hundredths of a percent, and their quotient by 100.
#[repr(C)]
#[derive(Clone, Copy)]
pub struct ShareReply {
    pub hundredths: u32,
    pub percent: f64,
}

pub fn share_reply(share: Share) -> ShareReply
    ensures { result ≡ share_reply_of share }
{
    ShareReply {
        hundredths: share.hundredths,
        percent: share.percent,
    }
}
