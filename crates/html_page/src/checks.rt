// The checks of the page up to 8, in their order: 13, 1, 2, 8.
ghost use Rattle.std.specs.Prelude.{ℕ, ◌*◌, ◌≡◌, Bool, List, length, IfOk};
ghost use Rattle.html.specs.PageCall.{page_contradicts, page_table, page_too_large, page_accepts};
ghost use Rattle.table_checks.specs.Checks.{after_checks};
ghost use Rattle.html_page.specs.Call.{sizes_of, arrays_of, IsPaged, page_within};

use crate::lent::PageTable;
use refusals::Refusal;
use table_checks::arrays::{known_codes, sized};
use table_checks::entries::adds_up;
use table_checks::limits::{shape_too_large, table_empty};
use table_checks::rules::keeps_rules;
use table_checks::shape::Shape;

const MAX_BYTES: usize = 32768;

// 13, of a page.
fn contradicts(table: PageTable<'_>) -> bool
    ensures { result ≡ page_contradicts (sizes_of table.entry) (arrays_of table.entry) }
{
    let shape = table.shape;
    if !sized(shape) || table.inner.len() != table.bytes {
        return true;
    }
    if !adds_up(shape.cell_entries, 4, 5, shape.cells, table.bytes) {
        return true;
    }
    !known_codes(shape)
}

// 2, of a page.
fn too_large(table: PageTable<'_>) -> bool
    requires { length table.shape.column_entries.now ≡ 2 * table.shape.columns }
    ensures { let s = sizes_of table.entry in
        result ≡ page_too_large s (page_table s (arrays_of table.entry)) }
{
    let shape = Shape {
        rows: table.shape.sections.len(),
        ..table.shape
    };
    shape_too_large(shape) | (MAX_BYTES < table.bytes)
}

pub fn check_page(table: PageTable<'_>) -> Result<(), Refusal>
    ensures answer { let s = sizes_of table.entry in
        let t = arrays_of table.entry in
        (widths : Bool) (out : List ℕ) → after_checks result (page_within widths (page_table s t) out) ≡ page_accepts widths s t out }
    ensures paged { IfOk result (λ _. IsPaged table.entry) }
{
    if contradicts(table) {
        return Err(Refusal::Contradiction);
    }
    if table_empty(table.shape) {
        return Err(Refusal::Empty);
    }
    if too_large(table) {
        return Err(Refusal::TooLarge);
    }
    if !keeps_rules(table.shape) {
        return Err(Refusal::RuleBroken);
    }
    Ok(())
}
