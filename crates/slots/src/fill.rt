// Slots, line by line.
ghost use Rattle.std.specs.Prelude.{ℕ, ◌+◌, ◌<◌, ◌≡◌, ◌&&◌, ltb, List, ◌∷◌, [], ◌++◌};
ghost use Rattle.text.specs.Rule.{is_rule};
ghost use Rattle.slots.specs.Filling.{NextRoom, FilledNext, separator_lines, Fillable, FilledAll};

use crate::Separators;
use crate::line::fill_line;
use refusals::Refusal;
use representation::STRIDE;
use rule_lines::rule::is_rule;
use rule_lines::trim::trim_end;
use text::Column;

fn is_separator(line: &[u8], y: usize) -> bool
    ensures { result ≡ (ltb 0 y && is_rule 0x3d line.now) }
{
    0 < y && is_rule(line, b'=')
}

// One separator more, line y.
fn note(separators: &mut Separators, y: usize)
    requires { (separators.old.count < 128) × (y < 128) }
    ensures { (separators.new.count ≡ separators.old.count + 1)
        × (separator_lines separators.new ≡ separator_lines separators.old ++ (y ∷ [])) }
{
    let at = separators.count;
    separators.lines[at] = y as u8;
    separators.count = at + 1;
}

// Do the slots of line y fill the width? It is noted where it is a separator.
fn fill_next(
    text: &[u8],
    y: usize,
    width: Column,
    count: u8,
    separators: &mut Separators,
    glyphs: &mut [u8],
    offsets: &mut [u16],
) -> bool
    requires { NextRoom text.now y width.0 count separators.old glyphs.old offsets.old }
    ensures { FilledNext text.now y width.0 count separators.old
        glyphs.old offsets.old separators.new glyphs.new offsets.new result }
{
    let line = trim_end(text);
    let separator = is_separator(line, y);
    let rule = y == 0 || separator;
    let full = fill_line(line, rule, count, y * STRIDE, width, glyphs, offsets);
    if separator {
        note(separators, y);
    }
    full
}

// The slots of all lines, of which `counts` says what scanning left. The lines' columns were used there.
pub fn fill(
    lengths: &[u16],
    text: &[u8],
    width: Column,
    counts: &[u8],
    glyphs: &mut [u8],
    offsets: &mut [u16],
) -> Result<Separators, Refusal>
    requires { (columns : List ℕ) × Fillable lengths.now columns text.now width.0 counts.now glyphs.old offsets.old }
    ensures { FilledAll lengths.now text.now width.0 counts.now
        glyphs.old offsets.old glyphs.new offsets.new result }
{
    let mut separators = Separators {
        lines: [0; 128],
        count: 0,
    };
    let mut at = 0;
    for (y, length) in lengths.iter().enumerate() {
        let end = at + *length as usize;
        let line = &text[at..end];
        if !fill_next(line, y, width, counts[y], &mut separators, glyphs, offsets) {
            return Err(Refusal::WrongWidth { line: y });
        }
        at = end;
    }
    Ok(separators)
}
