// The table call's answer as a struct.
ghost use Rattle.std.specs.Prelude.{◌≡◌};
ghost use Rattle.table.specs.Call.{sizes_of};
ghost use Rattle.replies.specs.Refused.{answer_told};
ghost use Rattle.replies.specs.TableReply.{table_reply_of};

use crate::refused::Numbered;
use table::TableSizes;

// Number 0 is acceptance; then how many columns, rows, cells, lines and bytes were written. A refusal
// has its number and place, and 0 for the rest.
#[repr(C)]
#[derive(Clone, Copy)]
pub struct TableReply {
    pub number: usize,
    pub place: usize,
    pub columns: usize,
    pub rows: usize,
    pub cells: usize,
    pub lines: usize,
    pub bytes: usize,
}

pub fn table_reply<R: Numbered>(answer: Result<TableSizes, R>) -> TableReply
    ensures { result ≡ table_reply_of (answer_told R.number R.place sizes_of answer) }
{
    match answer {
        Ok(sizes) => TableReply {
            number: 0,
            place: 0,
            columns: sizes.columns,
            rows: sizes.rows,
            cells: sizes.cells,
            lines: sizes.lines,
            bytes: sizes.bytes,
        },
        Err(refusal) => TableReply {
            number: refusal.number(),
            place: refusal.place(),
            columns: 0,
            rows: 0,
            cells: 0,
            lines: 0,
            bytes: 0,
        },
    }
}
