// The rectangles that tracing left in an array.
ghost use Rattle.std.specs.Prelude.{ℕ, ◌*◌, ◌≤◌, ◌<◌, ◌≡◌, length, get_or};
ghost use Rattle.representation.specs.Arrays.{rect_in};
ghost use Rattle.representation.specs.Lent.{rect_of};

use crate::rect::Rect;

// The first `count` rectangles of an array, four numbers each.
#[derive(Clone, Copy)]
pub struct Rects<'a> {
    pub array: &'a [u8],
    pub count: usize,
    pub ghost few: { count ≤ 1024 },
    pub ghost room: { 4 * count ≤ length array.now },
    pub ghost low: { (i : ℕ) → i < 4 * count → get_or array.now i 0 < 128 },
}

impl<'a> Rects<'a> {
    // Rectangle k.
    pub fn at(&self, k: usize) -> Rect
        requires { k < self.now.count }
        ensures is { rect_of result ≡ rect_in self.now.array.now k }
        ensures low { (result.top < 128) × (result.left.0 < 128) × (result.bottom < 128) × (result.right.0 < 128) }
    {
        Rect::at(self.array, k)
    }
}
