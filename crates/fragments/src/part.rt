// The part of a line between a cell's borders, cut (mod.rs: cell_fragment).
ghost use Rattle.std.specs.Prelude.{◌<◌};
ghost use Rattle.fragments.specs.Part.{Checked, Begins, Pieced};

use characters::tab_columns;
use rule_lines::trim::trim_end;
use text::{ByteAt, Column};

// Where a text stands: its byte and its column.
#[derive(Clone, Copy)]
pub struct Place {
    pub byte: ByteAt,
    pub column: Column,
}

// Where the cut text starts and ends in the line given, and its column.
#[derive(Clone, Copy)]
pub struct Piece {
    pub start: ByteAt,
    pub end: ByteAt,
    pub column: Column,
}

// Where a trimmed text at this place starts without its first space or one-column tab. A wider tab
// stays, and only the column moves.
fn after_first(text: &[u8], at: Place) -> Place
    requires { (at.byte.0 < 65536) × (at.column.0 < 65536) }
    ensures { Begins text.now at result }
{
    let next = Place {
        byte: ByteAt(at.byte.0 + 1),
        column: Column(at.column.0 + 1),
    };
    match text {
        [b' ', ..] => next,
        [b'\t', ..] if tab_columns(at.column) == 1 => next,
        [b'\t', ..] => Place {
            byte: at.byte,
            column: next.column,
        },
        _ => at,
    }
}

// The part between the borders, trimmed at its end and then cut at its first byte.
pub fn cut_part(text: &[u8], column: Column, start: ByteAt, end: ByteAt, left: Column) -> Piece
    requires { Checked text.now column start end left }
    ensures { Pieced text.now column start end left result }
{
    let trimmed = trim_end(&text[start.0..end.0]);
    let first = Place {
        byte: start,
        column: Column(column.0 + left.0 + 1),
    };
    let begun = after_first(trimmed, first);
    Piece {
        start: begun.byte,
        end: ByteAt(start.0 + trimmed.len()),
        column: begun.column,
    }
}
