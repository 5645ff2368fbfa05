// Refusals and counts in words, and what a value should be, added to a page.
#![tactic(auto)]

pub mod sentences;
pub mod wants;
pub mod words;
