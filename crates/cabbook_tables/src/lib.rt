// The tables that the workshop types: the lines of a card, and the uploads of a morning; and the statuses with which the tool ends.
#![tactic(auto)]

pub mod fields;
pub mod status;
pub mod uploads;
