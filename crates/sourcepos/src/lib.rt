// Source positions of a table, its rows and cells, and the register of line ends, as definitions
// in specs/; theorems about them in proofs/.
#![tactic(auto)]

// Where the text of a cell's line stands and ends: its line, the column of its first byte and that of its line end.
#[derive(Clone, Copy, Debug, PartialEq, Eq)]
pub struct CellLineEnd {
    pub line: u32,
    pub start: u32,
    pub eol: u32,
}
