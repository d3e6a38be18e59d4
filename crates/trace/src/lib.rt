// Tracing: the next corner's first bordered rectangle, until the skyline stands on the last line
// (layout.rs: trace).
#![tactic(auto)]

pub mod borders;
pub mod rects;
pub mod search;
pub mod skyline;

ghost use Rattle.std.specs.Prelude.{◌≤◌, ◌<◌, ◌≡◌, IfErr, length};
ghost use Rattle.refusals.specs.Refusal.{place_of};
ghost use Rattle.grid.specs.Trace.{next_rect, trace as trace_of};
ghost use Rattle.grid.specs.LayoutCall.{rect_space};
ghost use Rattle.trace.specs.Search.{grid_in, found_rect};
ghost use Rattle.trace.specs.Skylines.{sky_of};
ghost use Rattle.trace.specs.Tracing.{Lowest, traced_of, count_of};

use crate::borders::Borders;
use crate::rects::put_rect;
use crate::search::{FarCorner, find_rect};
use crate::skyline::{Corner, Skyline};
use refusals::Refusal;
use representation::MAX_CELLS;

// A grid of a single line or column has no rectangle.
const SINGLE: usize = 1;

// The first bordered rectangle at this corner, where it stands on columns all at that level.
fn next_rect(borders: &Borders, sky: &Skyline, corner: Corner) -> Option<FarCorner>
    requires { Lowest borders.now.width sky.now corner × (corner.top < borders.now.height) }
    ensures { found_rect corner.top corner.left result ≡ next_rect (grid_in borders.now) (sky_of sky.now) }
{
    let far = find_rect(borders, corner)?;
    if sky.is_level(corner.left, far.right, corner.top) {
        Some(far)
    } else {
        None
    }
}

// How many rectangles cover the grid, which are written down, or the refusal that tracing meets.
pub fn trace(borders: &Borders, rects: &mut [u8]) -> Result<usize, Refusal>
    requires { rect_space ≤ length rects.old }
    ensures kept { length rects.new ≡ length rects.old }
    ensures rects_after { traced_of result rects.new ≡ trace_of (grid_in borders.now) }
    ensures result_bound { count_of result ≤ 1024 }
    ensures no_place { IfErr result (λ e. place_of e ≡ 0) }
{
    if borders.height <= SINGLE || borders.width <= SINGLE {
        return Err(Refusal::NoCover);
    }
    let mut sky = Skyline::new(borders.width);
    let mut corner = Corner { top: 0, left: 0 };
    let mut n = 0;
    // A while: how many rectangles it takes is not known before.
    while corner.top < borders.height - 1 {
        let Some(far) = next_rect(borders, &sky, corner) else {
            return Err(Refusal::NoCover);
        };
        if n == MAX_CELLS {
            return Err(Refusal::TooManyCells);
        }
        put_rect(rects, n, corner.top, corner.left, far.bottom, far.right);
        sky = sky.raised(corner.left, far.right, far.bottom);
        corner = sky.next_corner(far.right, corner.top);
        n += 1;
    }
    Ok(n)
}
