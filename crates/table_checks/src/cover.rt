// 8: do the cells cover every square once? By a skyline, for each column the row up to which it is
// covered, so that no square is visited.
ghost use Rattle.std.specs.Prelude.{◌≤◌, ◌<◌, ◌≡◌, true, length};
ghost use Rattle.seq.specs.Lists.{neighbours};
ghost use Rattle.drawing.specs.GridRules.{comes_before, cover_once};
ghost use Rattle.table_checks.specs.Places.{places_of};
ghost use Rattle.table_checks.specs.Shapes.{grid_of, IsLaid};
ghost use Rattle.table_checks.specs.Skyline.{all_at, Raised};

use crate::cell_entry::CellEntry;
use crate::shape::Shape;

// A level for each column or row.
#[derive(Clone, Copy)]
pub struct Levels {
    pub each: [u8; 128],
}

impl Levels {
    // Are those from `from` up to `to` all at this level?
    pub fn all_at(&self, from: usize, to: usize, level: usize) -> bool
        requires { to ≤ 128 }
        ensures { result ≡ all_at self.now.each from to level }
    {
        for x in from..to {
            if self.each[x] as usize != level {
                return false;
            }
        }
        true
    }

    // Those from `left` up to `right` get this level.
    fn raise(&mut self, left: usize, right: usize, level: u8)
        requires { (left ≤ right) × (right ≤ 128) }
        ensures { Raised self.old.each left right level self.new.each }
    {
        for x in left..right {
            self.each[x] = level;
        }
    }
}

// Each cell in turn must stand level on those before it: a column that is higher would be covered twice,
// and a lower one left open, since later cells start no higher.
pub fn covers_once(shape: Shape<'_>) -> bool
    requires laid { IsLaid shape }
    requires ordered { neighbours comes_before (places_of shape.cells shape.cell_entries.now) ≡ true }
    ensures { result ≡ cover_once (grid_of shape.entry) }
{
    let mut bottoms = Levels { each: [0; 128] };
    for k in 0..shape.cells {
        let cell = CellEntry::at(shape.cell_entries, k);
        let left = cell.column as usize;
        if !bottoms.all_at(left, cell.right(), cell.row as usize) {
            return false;
        }
        bottoms.raise(left, cell.right(), cell.bottom() as u8);
    }
    bottoms.all_at(0, shape.columns, shape.sections.len())
}
