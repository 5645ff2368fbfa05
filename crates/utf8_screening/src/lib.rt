// Screening: whether a text has only octets that are allowed and whole characters, and if not, where the first fault is.
#![tactic(auto)]

pub mod plain;
pub mod texts;
pub mod units;
