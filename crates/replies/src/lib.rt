// The answers of the calls as structs for C and Rust, each beside the function from the one to the
// other; and the lengths of the arrays that a caller lends.
#![tactic(auto)]

pub mod cells;
pub mod fragment;
pub mod layouts;
pub mod pages;
pub mod redraws;
pub mod refused;
pub mod registers;
pub mod room;
pub mod sheets;
pub mod source_positions;
pub mod tables;
