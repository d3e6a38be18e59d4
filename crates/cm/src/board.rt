// A canvas that bears its cells' borders, and their text.
ghost use Rattle.std.specs.Prelude.{◌≤◌};

use crate::lettering::Lettering;
use text::Column;

// What a drawing's lines are read from, once its sizes are known: the origin, the width and the height, the number of
// cells, the borders of each, the canvas and the text.
#[derive(Clone, Copy)]
pub struct Board<'a> {
    pub origin: Column,
    pub width: Column,
    pub height: usize,
    pub cells: usize,
    pub rects: &'a [u8],
    pub canvas: &'a [u16],
    pub lettering: Lettering<'a, 'a>,
    pub ghost near: { origin.0 ≤ 255 },
}
