// The numbers with names: limits, refusals, properties, kinds of value, fields of a record and counts of a report.
#![tactic(auto)]

pub mod count;
pub mod field;
pub mod kind;
pub mod limit;
pub mod property;
pub mod refusal;
pub mod unlisted;
