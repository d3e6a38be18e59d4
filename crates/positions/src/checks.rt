// The checks of positions before reading's own: 13, and 2 for line and byte numbers.
ghost use Rattle.std.specs.Prelude.{◌≡◌};
ghost use Rattle.grid.specs.LayoutCall.{LayoutSpace};
ghost use Rattle.refusals.specs.Refusal.{answer_from};
ghost use Rattle.representation.specs.Lent.{drawing_of};
ghost use Rattle.sourcepos.specs.PositionsCall.{placed};
ghost use Rattle.positions.specs.Parts.{placed_check};

use reading::checks::contradicts;
use reading::limits::{any_over, space_short};
use refusals::Refusal;
use representation::lent::Drawing;

const MAX_LINES: usize = 128;

const MAX_REGISTER: u32 = 65535;

// A drawing with its line and byte numbers, and the lengths of the working space. One with no lines has
// no numbers that could be over the limit.
pub fn check_placed(
    drawing: Drawing<'_>,
    numbers: &[u32],
    table_bytes: &[u32],
    glyphs: usize,
    offsets: usize,
    down: usize,
    right: usize,
    rects: usize,
    starts: usize,
) -> Result<(), Refusal>
    ensures { let space : LayoutSpace = record { glyphs = glyphs; offsets = offsets; down = down; right = right; rects = rects } in
        answer_from (λ u. u) result ≡ placed_check space starts (placed (drawing_of drawing.entry) numbers.now table_bytes.now) }
{
    let lines = drawing.lines;
    if contradicts(drawing)
        || space_short(glyphs, offsets, down, right, rects)
        || starts < MAX_LINES
        || numbers.len() != lines
        || table_bytes.len() != lines
    {
        return Err(Refusal::Contradiction);
    }
    if any_over(numbers, MAX_REGISTER) || any_over(table_bytes, MAX_REGISTER) {
        return Err(Refusal::TooLarge);
    }
    Ok(())
}
