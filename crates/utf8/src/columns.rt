// The columns of a line that is known to be UTF-8 of the set, added up over its bytes: no character is
// put together, so many bytes are added at a time.
ghost use Rattle.std.specs.Prelude.{◌*◌, ◌≤◌, ◌≡◌, length};
ghost use Rattle.seq.specs.Lists.{any};
ghost use Rattle.text.specs.Columns.{is_tab, byte_columns, added_columns};

use text::Column;

// By comparisons alone: a match on ranges tests both ends of each, for every byte of a line.
fn byte_columns(b: u8) -> u16
    ensures { result ≡ byte_columns b }
{
    if b < 0x80 {
        return if b == 0x09 { 4 } else { 1 };
    }
    if b < 0xc0 {
        return 0;
    }
    if b < 0xcc {
        return 1;
    }
    if b < 0xe0 { 0 } else { 2 }
}

// A tab counts as 4.
pub fn added_columns(line: &[u8]) -> Column
    requires { length line.now ≤ 512 }
    ensures { (result.0 ≡ added_columns line.now) × (result.0 ≤ 4 * length line.now) }
{
    let mut n: u16 = 0;
    for b in line {
        n += byte_columns(*b);
    }
    Column(usize::from(n))
}

// Is there a tab? No byte ends the loop, so that many are tested at a time.
pub fn has_tab(line: &[u8]) -> bool
    ensures { result ≡ any is_tab line.now }
{
    let mut some = false;
    for b in line {
        some |= *b == 0x09;
    }
    some
}
