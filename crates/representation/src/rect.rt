// A rectangle of an array, four numbers each.
ghost use Rattle.std.specs.Prelude.{◌+◌, ◌*◌, ◌≤◌, ◌≡◌, length};
ghost use Rattle.representation.specs.Arrays.{rect_in};
ghost use Rattle.representation.specs.Lent.{rect_of};

use text::Column;

// Its border lines and border columns.
#[derive(Clone, Copy, Debug, PartialEq, Eq)]
pub struct Rect {
    pub top: usize,
    pub left: Column,
    pub bottom: usize,
    pub right: Column,
}

impl Rect {
    // Rectangle k of those that tracing left.
    pub fn at(rects: &[u8], k: usize) -> Self
        requires { 4 * k + 4 ≤ length rects.now }
        ensures { rect_of result ≡ rect_in rects.now k }
    {
        let first = 4 * k;
        Rect {
            top: rects[first] as usize,
            left: Column(rects[first + 1] as usize),
            bottom: rects[first + 2] as usize,
            right: Column(rects[first + 3] as usize),
        }
    }
}
