// Numbers and words, printed into a buffer. Each function gives the place after what it wrote.
#![tactic(auto)]

ghost use Rattle.std.specs.Prelude.{◌+◌, ◌*◌, ◌≤◌, ◌<◌, ◌≡◌, [], ◌∷◌, ◌++◌, length, get_or};
ghost use Rattle.seq.specs.Decimal.{decimal};
ghost use Rattle.printing.specs.Printing.{Put, Prints, spaced, cell_printed};
ghost use Rattle.grid.specs.Listing.{refused_line};

use writer::decimals::digits;

pub fn byte(b: u8, out: &mut [u8], at: usize) -> usize
    requires { at < length out.old }
    ensures { Put 1 out.old out.new at result (b ∷ []) }
{
    out[at] = b;
    at + 1
}

pub fn copy(bytes: &[u8], out: &mut [u8], at: usize) -> usize
    requires { at + length bytes.now ≤ length out.old }
    ensures { Put (length bytes.now) out.old out.new at result bytes.now }
{
    writer::copy(bytes, out, at)
}

fn decimal(number: usize, out: &mut [u8], at: usize) -> usize
    requires { at + 20 ≤ length out.old }
    ensures { Put 20 out.old out.new at result (decimal number) }
{
    let mut buffer = [0u8; 20];
    let start = digits(number, &mut buffer);
    copy(&buffer[start..20], out, at)
}

// Each number after a space.
pub fn numbers(values: &[usize], out: &mut [u8], at: usize) -> usize
    requires { at + 21 * length values.now ≤ length out.old }
    ensures { Put (21 * length values.now) out.old out.new at result (spaced values.now) }
{
    let mut end = at;
    for value in values {
        end = byte(b' ', out, end);
        end = decimal(*value, out, end);
    }
    end
}

// A line's first word and the numbers after it.
pub fn words(name: &[u8], values: &[usize], out: &mut [u8], at: usize) -> usize
    requires { at + (length name.now + 21 * length values.now) ≤ length out.old }
    ensures { let printed = name.now ++ spaced values.now in
        Put (length name.now + 21 * length values.now) out.old out.new at result printed }
{
    let end = copy(name, out, at);
    numbers(values, out, end)
}

pub fn wide(x: u16) -> usize
    ensures { (result ≡ x) × (result < 65536) }
{
    usize::from(x)
}

// Entry i of an array, 0 past its end.
pub fn entry(array: &[u16], i: usize) -> usize
    ensures { (result ≡ get_or array.now i 0) × (result < 65536) }
{
    if i < array.len() { wide(array[i]) } else { 0 }
}

// Cell i of an array of cells, and its number of lines.
pub fn cell_line(cells: &[u16], i: usize, lines: usize, out: &mut [u8], at: usize) -> usize
    requires { (i < 1024) × (at + 110 ≤ length out.old) }
    ensures { Put 110 out.old out.new at result (cell_printed cells.now i lines) }
{
    let values = [
        entry(cells, 5 * i),
        entry(cells, 5 * i + 1),
        entry(cells, 5 * i + 2),
        entry(cells, 5 * i + 3),
        lines,
    ];
    let end = words(b"cell", &values, out, at);
    byte(b'\n', out, end)
}

pub fn refused(number: usize, place: usize, out: &mut [u8]) -> usize
    requires { 131072 ≤ length out.old }
    ensures { Prints out.new result (refused_line number place) }
{
    let values = [number, place];
    let end = words(b"refused", &values, out, 0);
    byte(b'\n', out, end)
}
