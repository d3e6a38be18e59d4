// The search for the first bordered rectangle at a corner (layout.rs: find_rect).
ghost use Rattle.std.specs.Prelude.{◌<◌, ◌≡◌};
ghost use Rattle.grid.specs.Rectangle.{first_rect};
ghost use Rattle.trace.specs.Search.{grid_in, found_rect};

use crate::borders::Borders;
use crate::skyline::Corner;
use representation::{PLUS, STRIDE};

// A rectangle's corner across from the one where it starts.
#[derive(Clone, Copy)]
pub struct FarCorner {
    pub bottom: usize,
    pub right: usize,
}

// A column that has no `+` on top, or whose side ends above line b, fails for every later line, so
// the columns are not started anew.
pub fn find_rect(borders: &Borders, corner: Corner) -> Option<FarCorner>
    requires { (corner.top < borders.now.height) × (corner.left < borders.now.width) }
    ensures { found_rect corner.top corner.left result ≡ first_rect (grid_in borders.now) corner.top corner.left }
{
    let glyphs = borders.glyphs;
    let down = borders.down;
    let right = borders.right;
    let Corner { top, left } = corner;
    let start = top * STRIDE + left;
    if glyphs[start] != PLUS {
        return None;
    }
    let last = down[start] as usize;
    let end = right[start] as usize;
    let mut c = left + 1;
    'search: {
        for b in top + 1..last + 1 {
            let below = b * STRIDE + left;
            if glyphs[below] == PLUS {
                let reach = end.min(right[below] as usize);
                while c <= reach {
                    let beside = top * STRIDE + c;
                    if glyphs[beside] == PLUS && b <= down[beside] as usize {
                        break 'search Some(FarCorner {
                            bottom: b,
                            right: c,
                        });
                    }
                    c += 1;
                }
            }
        }
        None
    }
}
