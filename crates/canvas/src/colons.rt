// Colons on the alignment line.
ghost use Rattle.std.specs.Prelude.{ℕ, ◌*◌, ◌≤◌, ◌<◌, ◌≡◌, length, get_or};
ghost use Rattle.grid.specs.LayoutCall.{slot_space};
ghost use Rattle.grid.specs.Flat.{code_alignment};
ghost use Rattle.drawing.specs.Plain.{has_left_colon, has_right_colon};
ghost use Rattle.canvas.specs.Painting.{Drawn, colon_if, coloned, all_coloned};

use grid::TableAlignment;
use representation::STRIDE;

const COLON: u16 = 0x3a;

fn has_left_colon(alignment: TableAlignment) -> bool
    ensures { result ≡ has_left_colon alignment }
{
    matches!(alignment, TableAlignment::Left | TableAlignment::Center)
}

fn has_right_colon(alignment: TableAlignment) -> bool
    ensures { result ≡ has_right_colon alignment }
{
    matches!(alignment, TableAlignment::Right | TableAlignment::Center)
}

// A colon at column x of line y, where it is asked for.
fn put_colon(on: bool, y: usize, x: usize, canvas: &mut [u16])
    requires { (y < 128) × (x < 128) × (slot_space ≤ length canvas.old) }
    ensures { Drawn (colon_if on y x) canvas.old canvas.new }
{
    if on {
        canvas[y * STRIDE + x] = COLON;
    }
}

// The colons of the alignment with this code, from a corner to the next. No colon stands for a code that no
// alignment has.
fn put_colons(code: u16, from: usize, to: usize, row: usize, canvas: &mut [u16])
    requires { (from < to) × (to < 128) × (row < 128) × (slot_space ≤ length canvas.old) }
    ensures { Drawn (coloned code from to row) canvas.old canvas.new }
{
    let alignment = TableAlignment::try_from(code).unwrap_or(TableAlignment::None);
    put_colon(has_left_colon(alignment), row, from + 1, canvas);
    put_colon(has_right_colon(alignment), row, to - 1, canvas);
}

// The colons of all columns, from the last to the first: the next corner is then known.
pub fn draw_colons(
    cols: &[u16],
    columns: usize,
    xs: [usize; 128],
    marks: [u8; 128],
    row: usize,
    canvas: &mut [u16],
)
    requires row_bound { (row < 128) × (columns < 128) × (2 * columns ≤ length cols.now) × (slot_space ≤ length canvas.old) }
    requires rising { ((i j : ℕ) → i < j → j ≤ columns → get_or xs i 0 < get_or xs j 0) × (get_or xs columns 0 < 128) }
    ensures { Drawn (all_coloned cols.now xs marks columns row) canvas.old canvas.new }
{
    let mut next = columns;
    for k in (0..columns).rev() {
        if marks[k] == 1 {
            put_colons(cols[2 * k], xs[k], xs[next], row, canvas);
            next = k;
        }
    }
}
