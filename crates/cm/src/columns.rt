// The columns that a text takes from a column on.
ghost use Rattle.std.specs.Prelude.{◌≤◌, ◌≡◌, true, length};
ghost use Rattle.text.specs.Columns.{columns_from};
ghost use Rattle.text.specs.Utf8.{char_indices, well_formed};

use characters::known::span_in_set;
use text::{ByteAt, Character, Column};
use utf8::columns::{added_columns, has_tab};
use utf8::known::known_character;

// columns, character by character.
fn columns_decoded(line: &[u8], column: Column) -> Column
    requires { (column.0 ≤ 1024) × (length line.now ≤ 512) × (well_formed line.now ≡ true) }
    ensures { result.0 ≡ columns_from column.0 (char_indices line.now) }
{
    let first = column.0;
    let mut byte = 0;
    let mut n = 0;
    // A while: characters have different sizes.
    while byte < line.len() {
        let Character { value, size } = known_character(line, ByteAt(byte));
        n += span_in_set(value, Column(first + n));
        byte += size;
    }
    Column(n)
}

// Where there is no tab, as many as the bytes add.
pub fn columns(line: &[u8], column: Column) -> Column
    requires { (column.0 ≤ 1024) × (length line.now ≤ 512) × (well_formed line.now ≡ true) }
    ensures { result.0 ≡ columns_from column.0 (char_indices line.now) }
{
    if has_tab(line) {
        return columns_decoded(line, column);
    }
    added_columns(line)
}
