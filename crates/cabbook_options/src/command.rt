// The commands.

// A command.
#[derive(Clone, Copy, Debug, PartialEq, Eq)]
pub enum Command {
    Check,
    Show,
    Fold,
    Escape,
    Unescape,
    Encode,
    Decode,
    Morning,
    Report,
    V3in,
    V3out,
    Watch,
    Merge,
    Help,
    // None that this program has, by a number.
    Other(usize),
}

// The commands in the order of their numbers in the table of names.
pub const COMMANDS: [Command; 14] = [
    Command::Check,
    Command::Show,
    Command::Fold,
    Command::Escape,
    Command::Unescape,
    Command::Encode,
    Command::Decode,
    Command::Morning,
    Command::Report,
    Command::V3in,
    Command::V3out,
    Command::Watch,
    Command::Merge,
    Command::Help,
];
