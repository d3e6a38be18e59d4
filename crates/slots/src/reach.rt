// How far a border reaches from each slot: down to a line, right to a column (layout.rs: Grid::new).
ghost use Rattle.std.specs.Prelude.{◌+◌, ◌*◌, ◌≤◌, ◌<◌, ◌≡◌, cond, false, length, get_or};
ghost use Rattle.grid.specs.Slots.{horizontal, vertical};
ghost use Rattle.representation.specs.Arrays.{code_glyph, Roomy};
ghost use Rattle.representation.specs.Reach.{ReachRight, ReachDown};
ghost use Rattle.slots.specs.Reaching.{LineRoom, NoRun, LineRight, LineOf, joins_below, Stepped};

use representation::{DASH, PIPE, PLUS, STRIDE};

fn is_horizontal(glyph: u8) -> bool
    ensures { result ≡ horizontal (code_glyph glyph) }
{
    (glyph == PLUS) | (glyph == DASH)
}

fn is_vertical(glyph: u8) -> bool
    ensures { result ≡ vertical (code_glyph glyph) }
{
    (glyph == PLUS) | (glyph == PIPE)
}

// Where a run from a place ends: where that from the next place does, if it goes on there.
fn run_end(on: bool, next: u8, place: u8) -> u8
    ensures { result ≡ cond on next place }
{
    if on { next } else { place }
}

// Do two horizontal slots stand side by side on line y? No slot ends the loop, so that many are tested
// at a time.
fn has_run(glyphs: &[u8], y: usize, width: usize) -> bool
    requires { (y < 128) × (width ≤ 128) × (y * 128 + 128 ≤ length glyphs.now) }
    ensures { result ≡ false → NoRun width y glyphs.now }
{
    let mut any = false;
    for x in 1..width {
        let at = y * STRIDE + x;
        any |= is_horizontal(glyphs[at - 1]) & is_horizontal(glyphs[at]);
    }
    any
}

// From the right end of line y to its left: the last column of the horizontal run from each slot.
fn reach_runs(glyphs: &[u8], y: usize, width: usize, right: &mut [u8])
    requires { (y < 128) × LineRoom width y glyphs.now right.old }
    ensures { LineRight width y glyphs.now right.old right.new }
{
    let mut last = 0;
    let mut goes_on = false;
    for x in (0..width).rev() {
        let horizontal = is_horizontal(glyphs[y * STRIDE + x]);
        last = run_end(horizontal & goes_on, last, x as u8);
        right[y * STRIDE + x] = last;
        goes_on = horizontal;
    }
}

// Each slot of line y reaches itself.
fn reach_self(y: usize, width: usize, right: &mut [u8])
    requires { (y < 128) × (width ≤ 128) × (y * 128 + 128 ≤ length right.old) }
    ensures { LineOf width y (λ x. x) right.old right.new }
{
    for x in 0..width {
        right[y * STRIDE + x] = x as u8;
    }
}

// The last column of the horizontal run from each slot of line y. Most lines have none, and take two loops
// over many slots at a time.
fn reach_right_line(glyphs: &[u8], y: usize, width: usize, right: &mut [u8])
    requires { (y < 128) × LineRoom width y glyphs.now right.old }
    ensures { LineRight width y glyphs.now right.old right.new }
{
    if has_run(glyphs, y, width) {
        reach_runs(glyphs, y, width, right);
    } else {
        reach_self(y, width, right);
    }
}

pub fn reach_right(glyphs: &[u8], height: usize, width: usize, right: &mut [u8])
    requires { Roomy height width glyphs.now right.old }
    ensures right_len_unchanged { length right.new ≡ length right.old }
    ensures reach_right { ReachRight height width glyphs.now right.new }
{
    for y in 0..height {
        reach_right_line(glyphs, y, width, right);
    }
}

// Does a vertical run go on from a slot to the one below?
fn joins_below(glyphs: &[u8], at: usize) -> bool
    requires { at + 128 < length glyphs.now }
    ensures { result ≡ joins_below glyphs.now at }
{
    is_vertical(glyphs[at]) & is_vertical(glyphs[at + STRIDE])
}

// `ends` has the last line of the vertical run from each slot of the line below y; afterwards, of line y.
fn step_up(glyphs: &[u8], y: usize, width: usize, ends: &mut [u8])
    requires { (y + 1 < 128) × (width ≤ 128) × ((y + 1) * 128 + 128 ≤ length glyphs.now) × (width ≤ length ends.old) }
    ensures { Stepped width y glyphs.now ends.old ends.new }
{
    for x in 0..width {
        let on = joins_below(glyphs, y * STRIDE + x);
        ends[x] = run_end(on, ends[x], y as u8);
    }
}

fn put_line(ends: &[u8], y: usize, width: usize, down: &mut [u8])
    requires { (y < 128) × (width ≤ 128) × (width ≤ length ends.now) × (y * 128 + 128 ≤ length down.old) }
    ensures { LineOf width y (λ x. get_or ends.now x 0) down.old down.new }
{
    let start = y * STRIDE;
    down[start..start + width].copy_from_slice(&ends[..width]);
}

// From the last line up. What is known of a line stands in an array of its own: nothing else can change
// it, so that many slots are stepped at a time.
pub fn reach_down(glyphs: &[u8], height: usize, width: usize, down: &mut [u8])
    requires { Roomy height width glyphs.now down.old }
    ensures down_len_unchanged { length down.new ≡ length down.old }
    ensures reach_down { ReachDown height width glyphs.now down.new }
{
    if height == 0 {
        return;
    }
    let last = height - 1;
    let mut ends = [last as u8; 128];
    put_line(&ends, last, width, down);
    for y in (0..last).rev() {
        step_up(glyphs, y, width, &mut ends);
        put_line(&ends, y, width, down);
    }
}
