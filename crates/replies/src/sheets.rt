// The answer of the call from a drawing to its redrawing as a struct.
ghost use Rattle.std.specs.Prelude.{◌≡◌};
ghost use Rattle.replies.specs.SheetReply.{sheet_refused_of, sheet_told, sheet_reply_of};

use crate::refused::Refused;
use cm::draw::DrawingSizes;
use redrawing::SheetRefusal;

// Step 0 is acceptance; then how many lines and bytes were written. A refusal has its step, 1 for
// reading and 2 for redrawing, its number and place, and 0 for the rest.
#[repr(C)]
#[derive(Clone, Copy)]
pub struct SheetReply {
    pub step: usize,
    pub number: usize,
    pub place: usize,
    pub lines: usize,
    pub bytes: usize,
}

// A refusal of the reading or of the redrawing, of any number and any place.
#[derive(Clone, Copy, Debug, PartialEq, Eq)]
pub enum SheetRefused {
    Unread(Refused),
    Undrawn(Refused),
}

// A refusal that is one of the reading or one of the redrawing.
pub trait Stepped: Copy {
    ghost use Rattle.replies.specs.declared.sheets.SheetRefused.{SheetRefused};

    ghost refused: { Self → SheetRefused };

    fn refused(self) -> SheetRefused
        ensures { result ≡ refused self };
}

impl Stepped for SheetRefusal {
    ghost refused = { sheet_refused_of };

    fn refused(self) -> SheetRefused {
        match self {
            SheetRefusal::Unread(refusal) => SheetRefused::Unread(refusal.into()),
            SheetRefusal::Undrawn(refusal) => SheetRefused::Undrawn(refusal.into()),
        }
    }
}

impl Stepped for SheetRefused {
    ghost refused = { λ r. r };

    fn refused(self) -> SheetRefused {
        self
    }
}

pub fn sheet_reply<R: Stepped>(answer: Result<DrawingSizes, R>) -> SheetReply
    ensures { result ≡ sheet_reply_of (sheet_told R.refused answer) }
{
    match answer {
        Ok(DrawingSizes { lines, bytes }) => SheetReply {
            step: 0,
            number: 0,
            place: 0,
            lines,
            bytes,
        },
        Err(refusal) => match refusal.refused() {
            SheetRefused::Unread(told) => refused(1, told),
            SheetRefused::Undrawn(told) => refused(2, told),
        },
    }
}

fn refused(step: usize, told: Refused) -> SheetReply
    ensures { result ≡ record { step = step; number = told.number; place = told.place; lines = 0; bytes = 0 } }
{
    SheetReply {
        step,
        number: told.number,
        place: told.place,
        lines: 0,
        bytes: 0,
    }
}
