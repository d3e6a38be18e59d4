// Characters and their columns, UTF-8, trimming and rule lines (layout.rs: trim_end, is_rule).
#![tactic(auto)]

// A place in a line, counted in bytes.
#[derive(Clone, Copy, Debug, PartialEq, Eq)]
pub struct ByteAt(pub usize);

// A place on the screen, counted in columns.
#[derive(Clone, Copy, Debug, PartialEq, Eq)]
pub struct Column(pub usize);

// A character of a line, with its size in bytes.
#[derive(Clone, Copy, Debug, PartialEq, Eq)]
pub struct Character {
    pub value: u32,
    pub size: usize,
}
