// What a canvas is drawn from.
ghost use Rattle.cm.specs.Sketch.{plan, Planned};

// How many columns, rows, cells, Head and Foot rows; the columns and cells as lent; where the borders of columns and
// rows stand; and which column lines have a corner on the alignment line.
#[derive(Clone, Copy)]
pub struct Plan<'a> {
    pub columns: usize,
    pub rows: usize,
    pub cells: usize,
    pub heads: usize,
    pub foots: usize,
    pub column_entries: &'a [u16],
    pub cell_entries: &'a [u16],
    pub xs: [usize; 128],
    pub ys: [usize; 128],
    pub marks: [u8; 128],
    pub ghost planned: { Planned (plan columns rows cells heads foots column_entries.now cell_entries.now xs ys marks) },
}
