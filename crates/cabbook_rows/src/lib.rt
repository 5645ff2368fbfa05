// What the workshop reads and types of a file: its row, and the logical line under a refusal with a caret.
#![tactic(auto)]

pub mod faults;
pub mod rows;
pub mod under;
mod values;
