// The columns of a character, and which characters there are.
#![tactic(auto)]

pub mod known;

ghost use Rattle.std.specs.Prelude.{◌≡◌};
ghost use Rattle.seq.specs.Lists.{within as within_range};
ghost use Rattle.text.specs.Characters.{takes_one, takes_two, width_of, tab_columns, in_set, span as span_of};

use text::Column;

const TAB: u32 = 9;

const TAB_STOP: usize = 4;

pub fn within(a: u32, b: u32, x: u32) -> bool
    ensures { result ≡ within_range a b x }
{
    (a <= x) & (x <= b)
}

fn takes_one(c: u32) -> bool
    ensures { result ≡ takes_one c }
{
    within(0x20, 0x7e, c) | (within(0xa1, 0xac, c) | within(0xae, 0x17f, c))
}

fn takes_two(c: u32) -> bool
    ensures { result ≡ takes_two c }
{
    within(0x3041, 0x3096, c)
        | (within(0x30a1, 0x30fa, c)
            | (within(0x4e00, 0x9fff, c) | (within(0xac00, 0xd7a3, c) | within(0xff01, 0xff60, c))))
}

// None outside the set.
pub fn width(c: u32) -> Option<usize>
    ensures { result ≡ width_of c }
{
    if takes_one(c) {
        return Some(1);
    }
    if within(0x300, 0x36f, c) {
        return Some(0);
    }
    if takes_two(c) {
        return Some(2);
    }
    None
}

pub fn tab_columns(at: Column) -> usize
    ensures { result ≡ tab_columns at.0 }
{
    TAB_STOP - at.0 % TAB_STOP
}

#[tactic(auto, unfolding(text::specs::Characters::in_set))]
pub fn in_set(c: u32) -> bool
    ensures { result ≡ in_set c }
{
    c == TAB || width(c).is_some()
}

// The columns that a character takes where it stands, 0 outside the set.
pub fn span(c: u32, at: Column) -> usize
    ensures { result ≡ span_of at.0 c }
{
    if c == TAB {
        return tab_columns(at);
    }
    width(c).unwrap_or(0)
}
