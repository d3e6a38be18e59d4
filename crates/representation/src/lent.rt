// What a caller lends for a drawing or a table: its sizes, and the arrays that should have them.

// A drawing: the lengths of its lines in bytes and their columns, and its text back to back.
#[derive(Clone, Copy)]
pub struct Drawing<'a> {
    pub lines: usize,
    pub bytes: usize,
    pub lengths: &'a [u16],
    pub columns: &'a [u16],
    pub text: &'a [u8],
}

// A table: each column's alignment and declared width, each row's section, each cell's row, column,
// colspan, rowspan and number of lines, the lengths of all lines, and their text back to back.
#[derive(Clone, Copy)]
pub struct Table<'a> {
    pub columns: usize,
    pub rows: usize,
    pub cells: usize,
    pub lines: usize,
    pub bytes: usize,
    pub column_entries: &'a [u16],
    pub sections: &'a [u8],
    pub cell_entries: &'a [u16],
    pub lengths: &'a [u16],
    pub text: &'a [u8],
}
