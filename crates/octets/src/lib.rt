// Octets: their classes, runs of a class, names without case, copying, zeroing and slices.
#![tactic(auto)]

pub mod cases;
pub mod class_table;
pub mod classes;
pub mod copying;
pub mod indices;
pub mod slices;
