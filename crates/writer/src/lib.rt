// Bytes put down one after the other: what fits into the space is written, and all of it is counted.
// Run on no space, a writer counts.
#![tactic(auto)]

pub mod decimals;

ghost use Rattle.std.specs.Prelude.{◌+◌, ◌≤◌, ◌≡◌, [], ◌∷◌, length, replicate};
ghost use Rattle.writer.specs.Writing.{Wrote};

pub fn put(b: u8, out: &mut [u8], at: usize) -> usize
    requires { at ≤ 4294967296 }
    ensures { Wrote out.old at (b ∷ []) out.new result }
{
    if out.len() <= at {
        return at + 1;
    }
    out[at] = b;
    at + 1
}

pub fn copy(bytes: &[u8], out: &mut [u8], at: usize) -> usize
    requires { at + length bytes.now ≤ 18446744073709551615 }
    ensures { Wrote out.old at bytes.now out.new result }
{
    let count = bytes.len().min(out.len().saturating_sub(at));
    // Not copy_from_slice: tags and cut lines are short, and it calls a function for each.
    for i in 0..count {
        out[at + i] = bytes[i];
    }
    at + bytes.len()
}

// The same byte so many times.
pub fn fill(b: u8, count: usize, out: &mut [u8], at: usize) -> usize
    requires { (at ≤ 4294967296) × (count ≤ 65536) }
    ensures { Wrote out.old at (replicate count b) out.new result }
{
    let start = at.min(out.len());
    let end = start + count.min(out.len() - start);
    out[start..end].fill(b);
    at + count
}
