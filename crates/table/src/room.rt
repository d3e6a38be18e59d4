// Whether the arrays that a caller lends have room for a table.
ghost use Rattle.std.specs.Prelude.{◌≤◌, ◌≡◌};
ghost use Rattle.table.specs.Room.{table_too_short};

use crate::TableSizes;

// 12: of the arrays' lengths one is too short for a table of these sizes.
pub fn lacks_room(
    sizes: TableSizes,
    cols: usize,
    sections: usize,
    cells: usize,
    lengths: usize,
    text: usize,
) -> bool
    requires { (sizes.columns ≤ 128) × (sizes.cells ≤ 1024) }
    ensures { result ≡ table_too_short cols sections cells lengths text sizes.columns sizes.rows sizes.cells sizes.lines sizes.bytes }
{
    cols < 2 * sizes.columns
        || sections < sizes.rows
        || cells < 5 * sizes.cells
        || lengths < sizes.lines
        || text < sizes.bytes
}
