// The console's calls: each entry is called with lent room, and what it answers and leaves there is added to the output.
#![tactic(auto)]

pub mod entries;
pub mod rooms;
