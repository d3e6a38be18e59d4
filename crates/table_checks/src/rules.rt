// 8: the grid rules.
ghost use Rattle.std.specs.Prelude.{◌*◌, ◌≡◌, true, length, leb};
ghost use Rattle.seq.specs.Lists.{neighbours};
ghost use Rattle.drawing.specs.GridRules.{comes_before, all_inside, none_crosses, keeps_rules};
ghost use Rattle.table_checks.specs.Places.{places_of};
ghost use Rattle.table_checks.specs.Shapes.{grid_of, IsPlaced, IsLaid};

use crate::cell_entry::CellEntry;
use crate::cover::covers_once;
use crate::shape::Shape;
use crate::starts::all_start;

// Do the cells stand in order of row, then column?
fn in_order(n: usize, cells: &[u16]) -> bool
    requires { length cells.now ≡ 5 * n }
    ensures { result ≡ neighbours comes_before (places_of n cells.now) }
{
    for k in 1..n {
        let before = CellEntry::at(cells, k - 1);
        let cell = CellEntry::at(cells, k);
        let after = (before.row == cell.row) & (before.column < cell.column);
        if !((before.row < cell.row) | after) {
            return false;
        }
    }
    true
}

// Has every cell its spans, and lies in the grid?
fn all_inside(shape: Shape<'_>) -> bool
    requires { length shape.cell_entries.now ≡ 5 * shape.cells }
    ensures { result ≡ all_inside (grid_of shape.entry) }
{
    for k in 0..shape.cells {
        let cell = CellEntry::at(shape.cell_entries, k);
        if cell.colspan == 0
            || cell.rowspan == 0
            || shape.columns < cell.right()
            || shape.sections.len() < cell.bottom()
        {
            return false;
        }
    }
    true
}

// Do the sections run Head, Body, Foot?
fn sections_run(sections: &[u8]) -> bool
    ensures { result ≡ neighbours leb sections.now }
{
    sections.is_sorted()
}

// Does no cell cross from one section to another? Its first row's and its last row's tell.
fn none_crosses(shape: Shape<'_>) -> bool
    requires laid { IsLaid shape }
    requires run { neighbours leb shape.sections.now ≡ true }
    ensures { result ≡ none_crosses (grid_of shape.entry) }
{
    for k in 0..shape.cells {
        let cell = CellEntry::at(shape.cell_entries, k);
        if shape.sections[cell.row as usize] != shape.sections[cell.bottom() - 1] {
            return false;
        }
    }
    true
}

// The grid rules, in the order of their definition: a later one is tested where the earlier ones are kept.
pub fn keeps_rules(shape: Shape<'_>) -> bool
    requires { IsPlaced shape }
    ensures { result ≡ keeps_rules (grid_of shape.entry) }
{
    if !in_order(shape.cells, shape.cell_entries) {
        return false;
    }
    if !all_inside(shape) {
        return false;
    }
    if !covers_once(shape) {
        return false;
    }
    if !all_start(shape) {
        return false;
    }
    if !sections_run(shape.sections) {
        return false;
    }
    none_crosses(shape)
}
