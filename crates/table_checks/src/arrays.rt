// 13: the arrays of a table against its sizes.
ghost use Rattle.std.specs.Prelude.{◌*◌, ◌≡◌, ◌&&◌, length, ltb};
ghost use Rattle.seq.specs.Lists.{all};
ghost use Rattle.grid.specs.Flat.{length_is, every_nth, table_contradicts};
ghost use Rattle.representation.specs.Lent.{sizes_of, arrays_of};

use crate::entries::adds_up;
use crate::shape::Shape;
use grid::{GridTableSection, TableAlignment};
use representation::lent::Table;

// Do these arrays have their sizes? Told by dividing: twice a size may wrap.
pub fn sized(shape: Shape<'_>) -> bool
    ensures { let s = shape.entry in
        result ≡ length_is s.column_entries.now (2 * s.columns) && length_is s.sections.now s.rows && length_is s.cell_entries.now (5 * s.cells) }
{
    let columns = shape.column_entries.len();
    let cells = shape.cell_entries.len();
    columns / 2 == shape.columns
        && columns % 2 == 0
        && shape.sections.len() == shape.rows
        && cells / 5 == shape.cells
        && cells % 5 == 0
}

// Does every number stand for an alignment?
fn known_alignments(columns: usize, column_entries: &[u16]) -> bool
    requires { length column_entries.now ≡ 2 * columns }
    ensures { result ≡ all (λ code. ltb code 4) (every_nth 2 columns column_entries.now) }
{
    for k in 0..columns {
        if TableAlignment::try_from(column_entries[2 * k]).is_err() {
            return false;
        }
    }
    true
}

// Does every number stand for a section?
fn known_sections(sections: &[u8]) -> bool
    ensures { result ≡ all (λ code. ltb code 3) sections.now }
{
    for code in sections {
        if GridTableSection::try_from(*code).is_err() {
            return false;
        }
    }
    true
}

// Does every number that stands for an alignment or a section stand for one?
pub fn known_codes(shape: Shape<'_>) -> bool
    requires { length shape.column_entries.now ≡ 2 * shape.columns }
    ensures { let s = shape.entry in
        result ≡ all (λ code. ltb code 4) (every_nth 2 s.columns s.column_entries.now) && all (λ code. ltb code 3) s.sections.now }
{
    known_alignments(shape.columns, shape.column_entries) && known_sections(shape.sections)
}

// 13, of a table.
pub fn contradicts(table: Table<'_>) -> bool
    ensures { result ≡ table_contradicts (sizes_of table.entry) (arrays_of table.entry) }
{
    let shape = Shape::of(table);
    if !sized(shape) || table.lengths.len() != table.lines || table.text.len() != table.bytes {
        return true;
    }
    if !adds_up(table.cell_entries, 4, 5, table.cells, table.lines)
        || !adds_up(table.lengths, 0, 1, table.lines, table.bytes)
    {
        return true;
    }
    !known_codes(shape)
}
