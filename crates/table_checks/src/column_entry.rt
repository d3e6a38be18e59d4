// The two numbers of a column in an array.
ghost use Rattle.std.specs.Prelude.{◌+◌, ◌*◌, ◌≤◌, ◌≡◌, length};
ghost use Rattle.table_checks.specs.Entries.{column_in};

use grid::TableAlignment;

// Its alignment, and its declared width. A number that stands for no alignment is read as none.
#[derive(Clone, Copy, Debug, PartialEq, Eq)]
pub struct ColumnEntry {
    pub alignment: TableAlignment,
    pub width: u16,
}

impl ColumnEntry {
    pub fn at(columns: &[u16], k: usize) -> Self
        requires { 2 * k + 2 ≤ length columns.now }
        ensures { result ≡ column_in columns.now k }
    {
        let code = columns[2 * k];
        ColumnEntry {
            alignment: TableAlignment::try_from(code).unwrap_or(TableAlignment::None),
            width: columns[2 * k + 1],
        }
    }
}
