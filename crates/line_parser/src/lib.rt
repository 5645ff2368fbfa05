// The line rule: an unfolded logical line read from the left, and the part at fault of a line that breaks it.
#![tactic(auto)]

pub mod at_fault;
pub mod rule;
