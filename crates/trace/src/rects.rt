// Rectangles written one after the other into an array.
ghost use Rattle.std.specs.Prelude.{◌≤◌, ◌<◌, ◌≡◌, length};
ghost use Rattle.grid.specs.LayoutCall.{rect_space};
ghost use Rattle.trace.specs.Placing.{with_rect};

pub fn put_rect(rects: &mut [u8], n: usize, top: usize, left: usize, bottom: usize, right: usize)
    requires n_bound { (n < 1024) × (rect_space ≤ length rects.old) }
    requires top_bound { (top < 256) × (left < 256) × (bottom < 256) × (right < 256) }
    ensures { rects.new ≡ with_rect rects.old n (record { top = top; left = left; bottom = bottom; right = right }) }
{
    let at = n * 4;
    rects[at] = top as u8;
    rects[at + 1] = left as u8;
    rects[at + 2] = bottom as u8;
    rects[at + 3] = right as u8;
}
