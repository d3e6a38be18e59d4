// One line without the blanks at its end, and whether it is a rule (layout.rs: trim_end, is_rule).
#![tactic(auto)]

pub mod rule;
pub mod trim;
