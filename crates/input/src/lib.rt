// What the programs share: their arguments, a sheet from standard input, as far as a buffer holds it,
// a result to standard output, and a line on standard error where one of them fails.
#![tactic(auto)]

ghost use Rattle.std.specs.Prelude.{◌≡◌, ◌<◌, ◌≤◌, IfOk, length};

use std::env::{Env, FillError};
use std::io;
use std::io::Read;

// Reads until the buffer is full or the input ends, and counts the bytes.
pub fn read_input(stdin: &mut impl Read, buffer: &mut [u8]) -> io::Result<usize>
    ensures { IfOk result (λ n. n ≤ length buffer.new) }
{
    let mut n = 0;
    // A while: a read gives as many bytes as there are.
    while n < buffer.len() {
        let more = stdin.read(&mut buffer[n..])?;
        if more == 0 {
            return Ok(n);
        }
        n += more;
    }
    Ok(n)
}

// Whether the program was given an argument of this number; its name is number 0.
fn has_argument(rt: &impl Env, i: usize) -> bool {
    let mut word = [0u8; 32];
    !matches!(rt.arg(i, &mut word), Err(FillError::NotPresent))
}

// Whether a program with this one option is given it; none where its arguments are others.
pub fn read_choice(rt: &impl Env, option: &[u8]) -> Option<bool> {
    if !has_argument(rt, 1) {
        return Some(false);
    }
    // A word that does not fit is read as none.
    let mut word = [0u8; 32];
    let n = rt.arg(1, &mut word).unwrap_or(0);
    if !has_argument(rt, 2) && &word[..n] == option {
        return Some(true);
    }
    None
}

// A line of usage of the program of this name and option.
pub fn say_usage(rt: &HostRuntime, name: &[u8], option: &[u8]) {
    say(rt, b"usage: ", name, b" [");
    say(rt, b"", option, b"] < SHEET\n");
}

// Prints the answer of the program of this name to the sheet on standard input: the bytes that `write` puts at the start of
// the array of N bytes that it is given, and counts. No array has 2^63 bytes.
pub fn answer_sheet<const N: usize, F: FnOnce(&[u8], &mut [u8]) -> usize>(
    rt: &HostRuntime,
    name: &[u8],
    write: F,
)
    requires size { N < 9223372036854775808 }
    requires callable { (sheet out : _) → length out.now ≡ N → F.pre write sheet out }
    requires count { (sheet out n rest : _) → length out.now ≡ N → F.post write sheet out n rest → n ≤ N }
{
    // One byte more than the longest drawing, 32,768 bytes of text and 128 line feeds: as many
    // pass a limit, whatever follows.
    let mut sheet = [0u8; 32897];
    let Ok(n) = read_input(&mut rt.stdin(), &mut sheet) else {
        return say(rt, b"", name, b": input cannot be read\n");
    };
    let mut out = [0u8; N];
    let end = write(&sheet[..n], &mut out);
    if rt.stdout().write_all(&out[..end]).is_err() {
        say(rt, b"", name, b": output cannot be written\n");
    }
}

// The same of a program without arguments.
pub fn answer_only<const N: usize, F: FnOnce(&[u8], &mut [u8]) -> usize>(
    rt: &HostRuntime,
    name: &[u8],
    write: F,
)
    requires size { N < 9223372036854775808 }
    requires callable { (sheet out : _) → length out.now ≡ N → F.pre write sheet out }
    requires count { (sheet out n rest : _) → length out.now ≡ N → F.post write sheet out n rest → n ≤ N }
{
    // Whoever names a file must not be left waiting for standard input.
    if has_argument(rt, 1) {
        return say(rt, b"usage: ", name, b" < SHEET\n");
    }
    answer_sheet::<N, F>(rt, name, write);
}

// A line about the program of this name. Where standard error takes none, nobody is left to be told.
fn say(rt: &HostRuntime, before: &[u8], name: &[u8], after: &[u8]) {
    let _ = rt.stderr().write_all(before);
    let _ = rt.stderr().write_all(name);
    let _ = rt.stderr().write_all(after);
}
