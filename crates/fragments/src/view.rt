// A cut line as a view of the caller's text (fragments.rs: Fragment).
ghost use Rattle.std.specs.Prelude.{◌+◌, ◌≡◌};
ghost use Rattle.grid.specs.CutCall.{cut_text, cut_start};
ghost use Rattle.fragments.specs.Call.{line_in, range_in};
ghost use Rattle.fragments.specs.View.{cut_place};

use crate::part::Place;
use crate::{CellLine, cell_fragment, cell_text};
use text::{ByteAt, Column};

#[derive(Clone, Copy)]
pub struct Fragment<'a> {
    pub text: &'a [u8],
    pub line: usize,
    pub byte: ByteAt,
    pub column: Column,
}

// Where the cut text stands; 0 and 0 where the cut is refused.
fn cut_place(given: CellLine<'_>) -> Place
    ensures { let g = given.entry in
        result ≡ cut_place (line_in g) g.line g.table_byte.0 (range_in g) g.left.0 }
{
    match cell_fragment(given) {
        Ok(cut) => Place {
            byte: cut.byte,
            column: cut.column,
        },
        Err(_) => Place {
            byte: ByteAt(0),
            column: Column(0),
        },
    }
}

// The view of a line's cut text, where `cell_fragment` accepts the cut; else of the empty part at the
// line's start, with byte and column 0.
pub fn fragment_of<'a>(given: CellLine<'a>) -> Fragment<'a>
    ensures { let g = given.entry in
        let place = cut_place (line_in g) g.line g.table_byte.0 (range_in g) g.left.0 in
        (result.text.ref_ptr.0 ≡ g.text.ref_ptr.0)
        × (result.text.ref_ptr.1 ≡ g.text.ref_ptr.1 + cut_start (line_in g) g.line g.table_byte.0 (range_in g) g.left.0)
        × (result.text.now ≡ cut_text (line_in g) g.line g.table_byte.0 (range_in g) g.left.0)
        × (result.line ≡ g.line) × (result.byte ≡ place.byte) × (result.column ≡ place.column) }
{
    let place = cut_place(given);
    Fragment {
        text: cell_text(given),
        line: given.line,
        byte: place.byte,
        column: place.column,
    }
}

// The text that a fragment views: the same bytes at the same place.
pub fn fragment_text<'a>(f: Fragment<'a>) -> &'a [u8]
    ensures { result ≡ f.entry.text }
{
    f.text
}
