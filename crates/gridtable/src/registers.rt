// Adding, finding and remapping a line end.
ghost use Rattle.std.specs.Prelude.{◌≡◌};
ghost use Rattle.sourcepos.specs.LineEndCalls.{register, add_answer, add_afterwards, find_answer, remap_answer};
ghost use Rattle.replies.specs.LineEndReply.{add_reply_of, find_reply_of, remap_reply_of};
ghost use Rattle.gridtable.specs.Given.{end_given};

use line_ends::{Register, add, find, remap};
use replies::registers::{AddReply, FindReply, RemapReply, add_reply, find_reply, remap_reply};
use sourcepos::CellLineEnd;

// line_ends::add.
#[unsafe(no_mangle)]
pub extern "C" fn grid_add_line_end(
    count: usize,
    lines: &mut [u32],
    starts: &mut [u32],
    eols: &mut [u32],
    line: u32,
    start: u32,
    eol: u32,
) -> AddReply
    ensures { let before = register count lines.old starts.old eols.old in
        let after = add_afterwards before (end_given line start eol) in
        (result ≡ add_reply_of (add_answer before (end_given line start eol)))
        × (lines.new ≡ after.lines) × (starts.new ≡ after.starts) × (eols.new ≡ after.eols) }
{
    add_reply(add(count, lines, starts, eols, CellLineEnd { line, start, eol }))
}

// line_ends::find.
#[unsafe(no_mangle)]
pub extern "C" fn grid_find_line_end(
    count: usize,
    lines: &[u32],
    starts: &[u32],
    eols: &[u32],
    line: u32,
    column: u32,
) -> FindReply
    ensures { let given = register count lines.now starts.now eols.now in
        result ≡ find_reply_of (find_answer given line column) }
{
    let register = Register {
        count,
        lines,
        starts,
        eols,
    };
    find_reply(find(register, line, column))
}

// line_ends::remap.
#[unsafe(no_mangle)]
pub extern "C" fn grid_remap_line_end(
    count: usize,
    lines: &[u32],
    bytes: &[u32],
    line: u32,
    start: u32,
    eol: u32,
) -> RemapReply
    ensures { result ≡ remap_reply_of (remap_answer count lines.now bytes.now (end_given line start eol)) }
{
    remap_reply(remap(count, lines, bytes, CellLineEnd { line, start, eol }))
}
