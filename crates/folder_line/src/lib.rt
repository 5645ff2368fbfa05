// One logical line: where it is cut, how long it is when it is folded, the line folded, and whether it stands so.
#![tactic(auto)]

pub mod cutting;
pub mod folding;
pub mod standing;
