// The public calls for C and Rust: slices as pointer and length, answers as one struct. In C the
// arrays must be valid for their lengths and aligned, and one that is written may overlap no other.
#![tactic(auto)]

pub mod cells;
pub mod fragment;
pub mod lines;
pub mod pages;
pub mod redraws;
pub mod registers;
pub mod room;
pub mod sheets;
pub mod source_positions;
pub mod tables;

ghost use Rattle.std.specs.Prelude.{◌≡◌};
ghost use Rattle.grid.specs.LayoutCall.{layout_answer, layout_afterwards, spaces, drawing};
ghost use Rattle.layout.specs.Call.{layout_lent};
ghost use Rattle.replies.specs.LayoutReply.{layout_reply_of};

use layout::layout;
use replies::layouts::{LayoutReply, layout_reply};
use representation::lent::Drawing;

// layout::layout.
#[unsafe(no_mangle)]
pub extern "C" fn grid_layout(
    lines: usize,
    bytes: usize,
    lengths: &[u16],
    columns: &[u16],
    text: &[u8],
    glyphs: &mut [u8],
    offsets: &mut [u16],
    down: &mut [u8],
    right: &mut [u8],
    rects: &mut [u8],
    cols: &mut [u16],
    rows: &mut [u16],
    cells: &mut [u16],
    ranges: &mut [u16],
) -> LayoutReply
    ensures { let space = spaces glyphs.old offsets.old down.old right.old rects.old in
        let given = drawing lines bytes lengths.now columns.now text.now in
        let before = layout_lent cols.old rows.old cells.old ranges.old in
        let after = layout_lent cols.new rows.new cells.new ranges.new in
        (result ≡ layout_reply_of (layout_answer space given before))
        × (after ≡ layout_afterwards space given before) }
{
    let drawing = Drawing {
        lines,
        bytes,
        lengths,
        columns,
        text,
    };
    layout_reply(layout(
        drawing, glyphs, offsets, down, right, rects, cols, rows, cells, ranges,
    ))
}
