// The checks of a table in the order in which redraw makes them: 13, 1, 2, 3, 8.
#![tactic(auto)]

pub mod arrays;
pub mod cell_entry;
pub mod column_entry;
pub mod cover;
pub mod entries;
pub mod limits;
pub mod rules;
pub mod shape;
pub mod starts;

ghost use Rattle.std.specs.Prelude.{◌≡◌, List, length, IfOk};
ghost use Rattle.grid.specs.Answer.{Answer, refuse_if};
ghost use Rattle.grid.specs.Values.{Line};
ghost use Rattle.grid.specs.Flat.{table_contradicts, table_of_arrays};
ghost use Rattle.drawing.specs.Redraw.{check_table};
ghost use Rattle.representation.specs.Lent.{sizes_of, arrays_of};
ghost use Rattle.representation.specs.TableIn.{Tabled};
ghost use Rattle.table_checks.specs.Checks.{after_checks};

use crate::arrays::contradicts;
use crate::limits::{table_empty, too_large};
use crate::rules::keeps_rules;
use crate::shape::Shape;
use reading::checks::first_outside;
use refusals::Refusal;
use representation::lent::Table;

// The checks of a table that is to be drawn at this origin.
pub fn check_table(origin: usize, table: Table<'_>) -> Result<(), Refusal>
    ensures answer { let s = sizes_of table.entry in
        let t = arrays_of table.entry in
        (next : Answer (List Line)) → after_checks result next ≡ refuse_if (table_contradicts s t) 13 (check_table origin (table_of_arrays s t) next) }
    ensures tabled { let s = sizes_of table.entry in
        let t = arrays_of table.entry in
        IfOk result (λ _. Tabled origin s.columns s.cells t.columns t.sections t.cells t.lengths t.text) }
    ensures sized { let s = sizes_of table.entry in
        let t = arrays_of table.entry in
        IfOk result (λ _. (s.rows ≡ length t.sections) × (s.lines ≡ length t.lengths) × (s.bytes ≡ length t.text)) }
{
    if contradicts(table) {
        return Err(Refusal::Contradiction);
    }
    let shape = Shape::of(table);
    if table_empty(shape) {
        return Err(Refusal::Empty);
    }
    if too_large(origin, table) {
        return Err(Refusal::TooLarge);
    }
    if let Some(line) = first_outside(table.lengths, table.text) {
        return Err(Refusal::OutsideSet { line });
    }
    if !keeps_rules(shape) {
        return Err(Refusal::RuleBroken);
    }
    Ok(())
}
