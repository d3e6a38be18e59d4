// A table without its lines, which is what its page has of it as well.
ghost use Rattle.std.specs.Prelude.{◌≡◌};
ghost use Rattle.table_checks.specs.Shapes.{shape_of};

use representation::lent::Table;

// Its sizes, and each column's alignment and declared width, each row's section, and each cell's row,
// column, colspan, rowspan and one more number.
#[derive(Clone, Copy)]
pub struct Shape<'a> {
    pub columns: usize,
    pub rows: usize,
    pub cells: usize,
    pub column_entries: &'a [u16],
    pub sections: &'a [u8],
    pub cell_entries: &'a [u16],
}

impl<'a> Shape<'a> {
    pub fn of(table: Table<'a>) -> Self
        ensures { result ≡ shape_of table.entry }
    {
        Shape {
            columns: table.columns,
            rows: table.rows,
            cells: table.cells,
            column_entries: table.column_entries,
            sections: table.sections,
            cell_entries: table.cell_entries,
        }
    }
}
