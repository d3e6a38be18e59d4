// The lines of an input: line-feed-ended, the last may lack its feed.
#![tactic(auto)]

ghost use Rattle.std.specs.Prelude.{◌+◌, ◌-◌, ◌≤◌, ◌<◌, ◌≡◌, ◌∷◌, length, take, drop};
ghost use Rattle.grid.specs.Listing.{split_lines};
ghost use Rattle.input_lines.specs.Splitting.{Splits};

use printing::copy;
use refusals::Refusal;

// How many lines and bytes splitting wrote.
#[derive(Clone, Copy, Debug, PartialEq, Eq)]
pub struct Lines {
    pub lines: usize,
    pub bytes: usize,
}

// The first line feed at or after `from`, or the end.
fn find_feed(input: &[u8], from: usize) -> usize
    requires { from < length input.now }
    ensures { let rest = drop from input.now in
        ((from ≤ result) × (result ≤ length input.now))
        × (split_lines rest ≡ take (result - from) rest ∷ split_lines (drop (result + 1) input.now)) }
{
    for i in from..input.len() {
        if input[i] == b'\n' {
            return i;
        }
    }
    input.len()
}

// Writes each line's length and, without its feed, its text after those before it; refuses an input that passes a
// limit on lines or on bytes.
pub fn split_lines(input: &[u8], lengths: &mut [u16], text: &mut [u8]) -> Result<Lines, Refusal>
    requires { (length lengths.old ≡ 128) × (length text.old ≡ 32768) }
    ensures lengths_len { (length lengths.new ≡ 128) × (length text.new ≡ 32768) }
    ensures splits { Splits input.now lengths.new text.new result }
{
    let mut lines = 0;
    let mut bytes = 0;
    let mut at = 0;
    // A while: lines have different lengths.
    while at < input.len() {
        let end = find_feed(input, at);
        let size = end - at;
        if lengths.len() <= lines {
            return Err(Refusal::TooLarge);
        }
        if text.len() - bytes < size {
            return Err(Refusal::TooLarge);
        }
        bytes = copy(&input[at..end], text, bytes);
        lengths[lines] = size as u16;
        lines += 1;
        at = end + 1;
    }
    Ok(Lines { lines, bytes })
}
