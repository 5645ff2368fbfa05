// Folds and logical lines: where the next CR stands, where a logical line ends, where an octet of it stands.
#![tactic(auto)]

pub mod hops;
pub mod places;
pub mod spans;
