// The register of line ends (mod.rs: place_cell_line_ends, CellLineEnd::remap): three lent arrays of
// 1,024 entries and a count, the ends in the order in which they were added.
#![tactic(auto)]

pub mod search;

ghost use Rattle.std.specs.Prelude.{◌<◌, ◌≡◌, length, set};
ghost use Rattle.sourcepos.specs.LineEndCalls.{register, register_contradicts, bad_end, end_too_large, add_answer, add_afterwards, find_answer, remap_answer};
ghost use Rattle.line_ends.specs.Search.{register_of};
ghost use Rattle.line_ends.specs.Call.{add_answer_of, find_answer_of, remap_answer_of, count_after};

use crate::search::last_end;
use refusals::Refusal;
use sourcepos::CellLineEnd;

const REGISTER_ROOM: usize = 1024;

const MAX_REGISTER: u32 = 65535;

// The register as it is lent: how many ends it holds, and an array for each of their numbers.
#[derive(Clone, Copy)]
pub struct Register<'a> {
    pub count: usize,
    pub lines: &'a [u32],
    pub starts: &'a [u32],
    pub eols: &'a [u32],
}

// 13, of a register.
#[tactic(auto, unfolding(sourcepos::specs::LineEndCalls::register_contradicts))]
fn contradicts(register: Register) -> bool
    ensures { result ≡ register_contradicts (register_of register.entry) }
{
    !(register.lines.len() == REGISTER_ROOM
        && register.starts.len() == REGISTER_ROOM
        && register.eols.len() == REGISTER_ROOM
        && register.count <= REGISTER_ROOM)
}

// 13, of an end.
#[tactic(auto, unfolding(sourcepos::specs::LineEndCalls::bad_end))]
fn bad_end(end: CellLineEnd) -> bool
    ensures { result ≡ bad_end end }
{
    end.line == 0 || end.start == 0 || end.eol < end.start
}

// 2, of an end.
#[tactic(auto, unfolding(sourcepos::specs::LineEndCalls::end_too_large))]
fn end_too_large(end: CellLineEnd) -> bool
    ensures { result ≡ end_too_large end }
{
    MAX_REGISTER < end.line || MAX_REGISTER < end.start || MAX_REGISTER < end.eol
}

fn write_end(lines: &mut [u32], starts: &mut [u32], eols: &mut [u32], i: usize, end: CellLineEnd)
    requires { (i < length lines.old) × (i < length starts.old) × (i < length eols.old) }
    ensures line { lines.new ≡ set lines.old i end.line }
    ensures start { starts.new ≡ set starts.old i end.start }
    ensures eol { eols.new ≡ set eols.old i end.eol }
{
    lines[i] = end.line;
    starts[i] = end.start;
    eols[i] = end.eol;
}

// Adds an end to the register, and says how many it now holds.
#[tactic(auto, unfolding(sourcepos::specs::LineEndCalls::add_answer, sourcepos::specs::LineEndCalls::add_afterwards, sourcepos::specs::LineEndCalls::register_contradicts))]
pub fn add(
    count: usize,
    lines: &mut [u32],
    starts: &mut [u32],
    eols: &mut [u32],
    end: CellLineEnd,
) -> Result<usize, Refusal>
    ensures answer { add_answer_of result ≡ add_answer (register count lines.old starts.old eols.old) end }
    ensures register_after { let before = register count lines.old starts.old eols.old in
        register (count_after result count) lines.new starts.new eols.new ≡ add_afterwards before end }
{
    let register = Register {
        count,
        lines,
        starts,
        eols,
    };
    if contradicts(register) || bad_end(end) {
        return Err(Refusal::Contradiction);
    }
    if end_too_large(end) {
        return Err(Refusal::TooLarge);
    }
    if count == REGISTER_ROOM {
        return Err(Refusal::RegisterFull);
    }
    write_end(lines, starts, eols, count, end);
    Ok(count + 1)
}

// The eol of the last end at a line and column, where one reaches there.
#[tactic(auto, unfolding(sourcepos::specs::LineEnds::find_eol, sourcepos::specs::LineEndCalls::find_answer, sourcepos::specs::LineEndCalls::register_contradicts))]
pub fn find(register: Register, line: u32, column: u32) -> Result<Option<u32>, Refusal>
    ensures { find_answer_of result ≡ find_answer (register_of register.entry) line column }
{
    if contradicts(register) || line == 0 || column == 0 {
        return Err(Refusal::Contradiction);
    }
    if MAX_REGISTER < line || MAX_REGISTER < column {
        return Err(Refusal::TooLarge);
    }
    match last_end(register, line, column) {
        Some(i) => Ok(Some(register.eols[i])),
        None => Ok(None),
    }
}

// Moves an end of a text that was made of fragments onto the fragment of its line, counted from 1.
// The fragments' lines and bytes are two arrays and a count as the C interface lends them.
#[tactic(auto, unfolding(sourcepos::specs::LineEnds::remap, sourcepos::specs::LineEndCalls::remap_answer, sourcepos::specs::LineEndCalls::bad_end, sourcepos::specs::LineEndCalls::end_too_large))]
pub fn remap(
    count: usize,
    lines: &[u32],
    bytes: &[u32],
    end: CellLineEnd,
) -> Result<CellLineEnd, Refusal>
    ensures { remap_answer_of result ≡ remap_answer count lines.now bytes.now end }
{
    let agree = lines.len() == count && bytes.len() == count;
    if !agree || bad_end(end) || count < end.line as usize {
        return Err(Refusal::Contradiction);
    }
    let at = end.line as usize - 1;
    let byte = bytes[at];
    if end_too_large(end) || MAX_REGISTER < byte {
        return Err(Refusal::TooLarge);
    }
    let moved = CellLineEnd {
        line: lines[at],
        start: byte + end.start,
        eol: byte + end.eol,
    };
    if end_too_large(moved) {
        return Err(Refusal::TooLarge);
    }
    Ok(moved)
}
