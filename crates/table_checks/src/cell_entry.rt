// The five numbers of a cell in an array.
ghost use Rattle.std.specs.Prelude.{◌+◌, ◌*◌, ◌≤◌, ◌≡◌, length};
ghost use Rattle.table_checks.specs.Entries.{entry_in};

// Its place, its spans, and how many lines or bytes it has.
#[derive(Clone, Copy, Debug, PartialEq, Eq)]
pub struct CellEntry {
    pub row: u16,
    pub column: u16,
    pub colspan: u16,
    pub rowspan: u16,
    pub size: u16,
}

impl CellEntry {
    pub fn at(cells: &[u16], k: usize) -> Self
        requires { 5 * k + 5 ≤ length cells.now }
        ensures { result ≡ entry_in cells.now k }
    {
        let first = 5 * k;
        CellEntry {
            row: cells[first],
            column: cells[first + 1],
            colspan: cells[first + 2],
            rowspan: cells[first + 3],
            size: cells[first + 4],
        }
    }

    // The column after its last.
    pub fn right(self) -> usize
        ensures { result ≡ self.column + self.colspan }
    {
        self.column as usize + self.colspan as usize
    }

    // The row after its last.
    pub fn bottom(self) -> usize
        ensures { result ≡ self.row + self.rowspan }
    {
        self.row as usize + self.rowspan as usize
    }
}
