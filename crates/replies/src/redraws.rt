// The redraw call's answer as a struct.
ghost use Rattle.std.specs.Prelude.{◌≡◌};
ghost use Rattle.cm.specs.Late.{written_sizes};
ghost use Rattle.replies.specs.Refused.{answer_told};
ghost use Rattle.replies.specs.RedrawReply.{redraw_reply_of};

use crate::refused::Numbered;
use cm::draw::DrawingSizes;

// Number 0 is acceptance; then how many lines and bytes were written. A refusal has its number and
// place, and 0 for the rest.
#[repr(C)]
#[derive(Clone, Copy)]
pub struct RedrawReply {
    pub number: usize,
    pub place: usize,
    pub lines: usize,
    pub bytes: usize,
}

pub fn redraw_reply<R: Numbered>(answer: Result<DrawingSizes, R>) -> RedrawReply
    ensures { result ≡ redraw_reply_of (answer_told R.number R.place written_sizes answer) }
{
    match answer {
        Ok(DrawingSizes { lines, bytes }) => RedrawReply {
            number: 0,
            place: 0,
            lines,
            bytes,
        },
        Err(refusal) => RedrawReply {
            number: refusal.number(),
            place: refusal.place(),
            lines: 0,
            bytes: 0,
        },
    }
}
