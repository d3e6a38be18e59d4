// The borders of each cell along its lines and at its sides, and its number in its first inner
// column.
ghost use Rattle.std.specs.Prelude.{◌+◌, ◌*◌, ◌≤◌, ◌<◌, ◌≡◌, length};
ghost use mathlib.Core.List.{Memᴰ};
ghost use Rattle.grid.specs.Values.{Rect as Frame};
ghost use Rattle.grid.specs.LayoutCall.{slot_space};
ghost use Rattle.representation.specs.Arrays.{rects_of};
ghost use Rattle.representation.specs.LayoutEntries.{Inside};
ghost use Rattle.representation.specs.Lent.{rect_of};
ghost use Rattle.canvas.specs.Painting.{Drawn, rule_byte, ended, sided, bordered};

use crate::Rules;
use representation::STRIDE;
use representation::rect::Rect;

const DASH: u16 = 0x2d;

const EQUALS: u16 = 0x3d;

const PIPE: u16 = 0x7c;

// The byte of line y's borders.
fn rule_byte(rules: Rules, y: usize) -> u16
    ensures { result ≡ rule_byte rules y }
{
    let line = Some(y);
    if rules.head == line || rules.foot == line || rules.last == line {
        EQUALS
    } else {
        DASH
    }
}

// The borders along the lines of a cell.
fn draw_ends(rect: Rect, rules: Rules, canvas: &mut [u16])
    requires room { slot_space ≤ length canvas.old }
    requires inside { Inside 128 128 (rect_of rect) }
    ensures { Drawn (ended rules (rect_of rect)) canvas.old canvas.new }
{
    let from = rect.left.0 + 1;
    let to = rect.right.0;
    let above = rect.top * STRIDE;
    let below = rect.bottom * STRIDE;
    canvas[above + from..above + to].fill(rule_byte(rules, rect.top));
    canvas[below + from..below + to].fill(rule_byte(rules, rect.bottom));
}

// The sides of a cell, and its number at the start of each inner line.
fn draw_sides(rect: Rect, number: u16, canvas: &mut [u16])
    requires room { slot_space ≤ length canvas.old }
    requires inside { Inside 128 128 (rect_of rect) }
    ensures { Drawn (sided number (rect_of rect)) canvas.old canvas.new }
{
    let left = rect.left.0;
    let right = rect.right.0;
    for y in rect.top + 1..rect.bottom {
        let line = y * STRIDE;
        canvas[line + left + 1] = number;
        canvas[line + left] = PIPE;
        canvas[line + right] = PIPE;
    }
}

// The borders and numbers of all cells.
pub fn draw_borders(rects: &[u8], n: usize, rules: Rules, canvas: &mut [u16])
    requires n_bound { (n ≤ 1024) × (4 * n ≤ length rects.now) × (slot_space ≤ length canvas.old) }
    requires inside { (r : Frame) → Memᴰ r (rects_of n rects.now) → Inside 128 128 r }
    ensures { Drawn (bordered rules rects.now n) canvas.old canvas.new }
{
    for k in 0..n {
        let rect = Rect::at(rects, k);
        draw_sides(rect, (256 + k) as u16, canvas);
        draw_ends(rect, rules, canvas);
    }
}
