// The words of a command line: which names the command, which are options, wherever they stand, and which name files.
#![tactic(auto)]

pub mod arguments;
pub mod command;
pub mod names;
pub mod words;
