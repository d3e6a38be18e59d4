// The layout call's answer as a struct.
ghost use Rattle.std.specs.Prelude.{◌≡◌};
ghost use Rattle.layout.specs.Call.{sizes_of};
ghost use Rattle.replies.specs.Refused.{answer_told};
ghost use Rattle.replies.specs.LayoutReply.{layout_reply_of};

use crate::refused::Numbered;
use layout::LayoutSizes;

// Number 0 is acceptance; then the values are those of the call. A refusal has its number and
// place, and 0 for the rest.
#[repr(C)]
#[derive(Clone, Copy)]
pub struct LayoutReply {
    pub number: usize,
    pub place: usize,
    pub width: usize,
    pub columns: usize,
    pub rows: usize,
    pub cells: usize,
    pub ranges: usize,
}

pub fn layout_reply<R: Numbered>(answer: Result<LayoutSizes, R>) -> LayoutReply
    ensures { result ≡ layout_reply_of (answer_told R.number R.place sizes_of answer) }
{
    match answer {
        Ok(sizes) => LayoutReply {
            number: 0,
            place: 0,
            width: sizes.width.0,
            columns: sizes.columns,
            rows: sizes.rows,
            cells: sizes.cells,
            ranges: sizes.ranges,
        },
        Err(refusal) => LayoutReply {
            number: refusal.number(),
            place: refusal.place(),
            width: 0,
            columns: 0,
            rows: 0,
            cells: 0,
            ranges: 0,
        },
    }
}
