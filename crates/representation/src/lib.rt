// The code's own definitions: how its arrays hold slots, rectangles, lines and entries, and an answer
// in the parts in which the code makes it. In proofs/, that these agree with the rules' definitions.
// What the calls promise is read in the rules crates.
#![tactic(auto)]

pub mod lent;
pub mod rect;
pub mod rects;

ghost use Rattle.std.specs.Prelude.{ℕ, ◌+◌, ◌-◌, ◌<◌, ◌≤◌, ◌≡◌, length, get_or};

// The column (row) lines in order, the first count entries of `lines`; and for each column (line)
// how many of them come before it.
#[derive(Clone, Copy)]
pub struct Bounds {
    pub lines: [u8; 128],
    pub index: [u8; 128],
    pub count: usize,
    pub ghost room: { length lines ≡ 128 },
    pub ghost few: { count ≤ 128 },
    pub ghost rising: { (k : ℕ) → k + 1 < count → get_or lines k 0 < get_or lines (k + 1) 0 },
    pub ghost low: { (k : ℕ) → k < count → get_or lines k 0 < 128 },
}

// Lines and numbers as in `Bounds`, of which nothing is known: the lines may fall, or pass 127.
#[derive(Clone, Copy)]
pub struct Numbering {
    pub lines: [u8; 128],
    pub index: [u8; 128],
    pub count: usize,
}

impl Bounds {
    ghost use Rattle.representation.specs.LayoutEntries.{numbering_of};

    // The lines and numbers alone.
    pub fn numbering(&self) -> Numbering
        ensures { result ≡ numbering_of self.now }
    {
        Numbering {
            lines: self.lines,
            index: self.index,
            count: self.count,
        }
    }

    // How many columns (rows) lie between the lines.
    pub fn bands(&self) -> usize
        ensures { result ≡ self.now.count - 1 }
    {
        self.count.saturating_sub(1)
    }

    // The two lines between which column (row) k lies.
    pub fn band(&self, k: usize) -> (usize, usize)
        requires { k + 1 < self.now.count }
        ensures from { result.0 ≡ get_or self.now.lines k 0 }
        ensures to { result.1 ≡ get_or self.now.lines (k + 1) 0 }
        ensures apart { result.0 < result.1 }
        ensures low { result.1 < 128 }
    {
        (usize::from(self.lines[k]), usize::from(self.lines[k + 1]))
    }
}

// Head rows lie above line head, 0 where there is no Head; Foot rows from line foot on, 128 where
// there is no Foot. Bounds and no Options: a row is only compared with them.
#[derive(Clone, Copy)]
pub struct Parts {
    pub head: usize,
    pub foot: usize,
}

// Slots as arrays: line y's stand from index y * STRIDE on.
pub const STRIDE: usize = 128;

// A glyph as a number: 1 for horizontal and 2 for vertical.
pub const OTHER: u8 = 0;

pub const DASH: u8 = 1;

pub const PIPE: u8 = 2;

pub const PLUS: u8 = 3;

// The most rectangles that tracing places.
pub const MAX_CELLS: usize = 1024;
