// The limits of a drawing and of the working space.
ghost use Rattle.std.specs.Prelude.{◌≡◌, ltb};
ghost use Rattle.grid.specs.Read.{drawing_too_large};
ghost use Rattle.grid.specs.Flat.{lines_of};
ghost use Rattle.std.specs.List.{list_any};
ghost use Rattle.std.specs.Ordering.{partial_lt};
ghost use Rattle.reading.specs.Agreement.{Agree};
ghost use Rattle.grid.specs.Limits.{max_width};
ghost use Rattle.grid.specs.LayoutCall.{space_short, spaces};
ghost use Rattle.representation.specs.Lent.{drawing_of};

use representation::lent::Drawing;
use text::Column;

const MAX_LINES: usize = 128;

const MAX_LINE_BYTES: u16 = 512;

const MAX_BYTES: usize = 32768;

const MAX_COLUMN: u16 = 255;

const MAX_WIDTH: usize = 128;

const SLOT_SPACE: usize = 16384;

const RECT_SPACE: usize = 4096;

// Is any number over this limit?
pub fn any_over<T: Copy + PartialOrd>(numbers: &[T], limit: T) -> bool
    ensures { result ≡ list_any (λ n. partial_lt T.partial_cmp limit n) numbers.now }
{
    numbers.iter().any(|n| limit < *n)
}

// 2, of a drawing whose arrays agree.
pub fn too_large(drawing: Drawing<'_>) -> bool
    requires { Agree drawing.lengths.now drawing.columns.now drawing.text.now }
    ensures { result ≡ drawing_too_large (lines_of (drawing_of drawing.entry)) }
{
    MAX_LINES < drawing.lengths.len()
        || any_over(drawing.lengths, MAX_LINE_BYTES)
        || any_over(drawing.columns, MAX_COLUMN)
        || MAX_BYTES < drawing.text.len()
}

// 2, of a drawing's width.
pub fn too_wide(width: Column) -> bool
    ensures { result ≡ ltb max_width width.0 }
{
    MAX_WIDTH < width.0
}

// 13, of the working space.
#[tactic(auto, using(std::proofs::lemmas::Bool::Decides::nat_tests), unfolding(grid::specs::LayoutCall::space_short))]
pub fn space_short(glyphs: usize, offsets: usize, down: usize, right: usize, rects: usize) -> bool
    ensures { result ≡ space_short (record { glyphs = glyphs; offsets = offsets; down = down; right = right; rects = rects }) }
{
    glyphs < SLOT_SPACE
        || offsets < SLOT_SPACE
        || down < SLOT_SPACE
        || right < SLOT_SPACE
        || rects < RECT_SPACE
}
