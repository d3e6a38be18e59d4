// Shares of columns and the page, as definitions in specs/.
#![tactic(auto)]

// The hundredths of a percent that a column's width is of all widths, and their quotient by 100.
#[derive(Clone, Copy)]
pub struct Share {
    pub hundredths: u32,
    pub percent: f64,
}
