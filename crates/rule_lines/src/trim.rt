// Trimming, as `trim_end` of layout.rs.
ghost use Rattle.std.specs.Prelude.{◌≤◌, ◌≡◌, length, take};
ghost use Rattle.seq.specs.Lists.{all};
ghost use Rattle.text.specs.Trim.{trim_end, blank};

// Without a branch, for the loop over all bytes of a block.
fn is_blank(b: u8) -> bool
    ensures { result ≡ blank b }
{
    (b == b' ') | (b == b'\t')
}

// No byte ends the loop, so that many are tested at a time.
fn all_blank(part: &[u8]) -> bool
    ensures { result ≡ all blank part.now }
{
    let mut blanks = true;
    for b in part {
        blanks &= is_blank(*b);
    }
    blanks
}

// How many bytes are left where blanks are dropped from the end, 64 at a time.
// A while: over chunks from the end it would count the same n beside them.
fn without_blocks(text: &[u8]) -> usize
    ensures { (result ≤ length text.now) × (trim_end text.now ≡ trim_end (take result text.now)) }
{
    let mut n = text.len();
    while 64 <= n {
        if !is_blank(text[n - 1]) {
            return n;
        }
        if !all_blank(&text[n - 64..n]) {
            return n;
        }
        n -= 64;
    }
    n
}

// The part of the line from its start on that is left.
pub fn trim_end(text: &[u8]) -> &[u8]
    ensures { (result.ref_ptr ≡ text.entry.ref_ptr) × (result.now ≡ trim_end text.now) }
{
    for i in (0..without_blocks(text)).rev() {
        if !is_blank(text[i]) {
            return &text[..i + 1];
        }
    }
    &text[0..0]
}
