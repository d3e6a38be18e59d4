// The last end of those that reach a line and column.
ghost use Rattle.std.specs.Prelude.{◌<◌, ◌≡◌, IfSome};
ghost use Rattle.seq.specs.Lists.{select};
ghost use Rattle.sourcepos.specs.LineEnds.{reaches, is_later, later, last_end};
ghost use Rattle.sourcepos.specs.LineEndCalls.{end_at, ends_of};
ghost use Rattle.line_ends.specs.Search.{register_of, last_at, Held};

use crate::Register;
use sourcepos::CellLineEnd;

// End i of a register.
fn end_at(register: Register, i: usize) -> CellLineEnd
    requires { (i < register.count) × Held (register_of register) }
    ensures { result ≡ end_at (register_of register.entry) i }
{
    CellLineEnd {
        line: register.lines[i],
        start: register.starts[i],
        eol: register.eols[i],
    }
}

fn end_reaches(end: CellLineEnd, line: u32, column: u32) -> bool
    ensures { result ≡ reaches line column end }
{
    end.line == line && end.start <= column && column <= end.eol
}

// Is the first the later of the two, by start and then by eol?
fn is_later(a: CellLineEnd, b: CellLineEnd) -> bool
    ensures { result ≡ is_later a b }
{
    (b.start, b.eol) <= (a.start, a.eol)
}

// Of end i and the last of those behind it: the later one.
fn later_of(register: Register, i: usize, last: Option<usize>) -> usize
    requires held { (i < register.count) × Held (register_of register) }
    requires behind { IfSome last (λ j. j < register.count) }
    ensures one_of_them { result < register.entry.count }
    ensures later { let given = register_of register.entry in
        end_at given result ≡ later (end_at given i) (last_at given last) }
{
    match last {
        Some(last) if !is_later(end_at(register, i), end_at(register, last)) => last,
        _ => i,
    }
}

// Which end is the last of those that reach a line and column, if one does. It walks from the last end
// to the first, and keeps one.
pub fn last_end(register: Register, line: u32, column: u32) -> Option<usize>
    requires { Held (register_of register) }
    ensures within { IfSome result (λ i. i < register.entry.count) }
    ensures last { let given = register_of register.entry in
        last_at given result ≡ last_end (select (reaches line column) (ends_of given)) }
{
    let mut last = None;
    for i in (0..register.count).rev() {
        if end_reaches(end_at(register, i), line, column) {
            last = Some(later_of(register, i, last));
        }
    }
    last
}
