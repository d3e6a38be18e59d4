// The lines of a table's text: where each starts and ends, and its columns.
ghost use Rattle.std.specs.Prelude.{◌*◌, ◌≤◌, ◌≡◌, true, length};
ghost use Rattle.seq.specs.Lists.{sum};
ghost use Rattle.text.specs.Utf8.{well_formed};
ghost use Rattle.sizes.specs.Lines.{line_columns, Trimmed};

use rule_lines::trim::trim_end;
use text::Column;
use utf8::columns::added_columns;

// Where each line of the text starts, and where it ends without the blanks at its end.
pub fn trim_lines(lengths: &[u16], text: &[u8], starts: &mut [u16], ends: &mut [u16])
    requires lengths_value { (sum lengths.now ≡ length text.now) × (length text.now ≤ 32768) }
    requires lengths_in_bounds { (length lengths.now ≤ length starts.old) × (length lengths.now ≤ length ends.old) }
    ensures { Trimmed lengths.now text.now starts.new ends.new }
{
    let mut at = 0;
    for (i, length) in lengths.iter().enumerate() {
        let next = at + *length as usize;
        let line = trim_end(&text[at..next]);
        starts[i] = at as u16;
        ends[i] = (at + line.len()) as u16;
        at = next;
    }
}

// The columns of a line, a tab counted as 4.
pub fn line_columns(line: &[u8]) -> Column
    requires { (length line.now ≤ 512) × (well_formed line.now ≡ true) }
    ensures { (result.0 ≡ line_columns line.now) × (result.0 ≤ 4 * length line.now) }
{
    added_columns(line)
}
