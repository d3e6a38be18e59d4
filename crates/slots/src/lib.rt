// The slots of a drawing as arrays, and its part separators (layout.rs: Grid::new).
#![tactic(auto)]

pub mod fill;
pub mod glyphs;
pub mod line;
pub mod map;
pub mod reach;
pub mod scan;

ghost use Rattle.std.specs.Prelude.{◌≤◌, ◌≡◌, length};

// The part separators: the first count entries are their lines.
#[derive(Clone, Copy)]
pub struct Separators {
    pub lines: [u8; 128],
    pub count: usize,
    pub ghost few: { count ≤ 128 },
    pub ghost room: { length lines ≡ 128 },
}
