// The names of options and commands, searched in a table: of each its number, the length of its name, and the name.
ghost use Rattle.std.specs.Prelude.{◌≡◌, ◌<◌};
ghost use Rattle.cabbook_options.specs.Names.{names, number_of, table_of, options_end, place_of, meaning, named, most_of};

use crate::command::{COMMANDS, Command};
use numbers::limit;
use octets::cases::same_name;
use octets::indices::wide;

// An option.
#[derive(Clone, Copy, Debug, PartialEq, Eq)]
pub enum Switch {
    // `--edition N`.
    Edition,
    // `--chunk N`.
    Chunk,
    // `--tick N`.
    Tick,
    // `--slots N`.
    Slots,
    // `--as-read`.
    AsRead,
    // `--rfc6350`.
    Rfc6350,
    // `--bars`.
    Bars,
    // `--all`.
    All,
    // `--quiet`.
    Quiet,
    // `--json`.
    Json,
    // `--help` and `-h`.
    Help,
    // `--version`.
    Version,
    // None that this program has, by a number.
    Other(usize),
}

// How many options there are.
pub const COUNT: usize = 12;

// More than the number of any option.
pub const OPTIONS: usize = 13;

// The options in the order of their numbers in the table, from 1 on.
pub const SWITCHES: [Switch; COUNT] = [
    Switch::Edition,
    Switch::Chunk,
    Switch::Tick,
    Switch::Slots,
    Switch::AsRead,
    Switch::Rfc6350,
    Switch::Bars,
    Switch::All,
    Switch::Quiet,
    Switch::Json,
    Switch::Help,
    Switch::Version,
];

// The numbers of options and of commands in the table.
const FIRST_OPTION: usize = 1;

const LAST_OPTION: usize = 12;

const FIRST_COMMAND: usize = 21;

const LAST_COMMAND: usize = 34;

// What a name stands for.
#[derive(Clone, Copy, Debug, PartialEq, Eq)]
pub enum Named {
    AnOption(Switch),
    ACommand(Command),
}

// The octets before a name in the table: its number and its length.
const HEAD: usize = 2;

// The editions that there are.
const EDITIONS: usize = 2;

// The octets of the table.
const SIZE: usize = 217;

const NAMES: [u8; SIZE] = *b"\
    \x01\x09--edition\
    \x02\x07--chunk\
    \x03\x06--tick\
    \x04\x07--slots\
    \x05\x09--as-read\
    \x06\x09--rfc6350\
    \x07\x06--bars\
    \x08\x05--all\
    \x09\x07--quiet\
    \x0a\x06--json\
    \x0b\x06--help\
    \x0b\x02-h\
    \x0c\x09--version\
    \x15\x05check\
    \x16\x04show\
    \x17\x04fold\
    \x18\x06escape\
    \x19\x08unescape\
    \x1a\x06encode\
    \x1b\x06decode\
    \x1c\x07morning\
    \x1d\x06report\
    \x1e\x04v3in\
    \x1f\x05v3out\
    \x20\x05watch\
    \x21\x05merge\
    \x22\x04help";

// The table as a value.
fn table() -> [u8; SIZE]
    ensures { result ≡ table_of names }
{
    NAMES
}

// The number of a name in the table; 0 where there is no such name.
fn number_in(t: &[u8], word: &[u8]) -> usize
    requires { t.now ≡ table_of names }
    ensures { result ≡ number_of word.now }
{
    let mut from: usize = 0;
    while from < t.len() {
        let start = from + HEAD;
        let end = start + wide(t[from + 1]);
        if same_name(word, &t[start..end]) {
            return wide(t[from]);
        }
        from = end;
    }
    0
}

// What a number of the table stands for; nothing where no name has it.
#[tactic(auto, unfolding(crate::specs::Names::meaning))]
fn meaning(n: usize) -> Option<Named>
    ensures { result ≡ meaning n }
{
    match n {
        FIRST_OPTION..=LAST_OPTION => Some(Named::AnOption(SWITCHES[n - FIRST_OPTION])),
        FIRST_COMMAND..=LAST_COMMAND => Some(Named::ACommand(COMMANDS[n - FIRST_COMMAND])),
        _ => None,
    }
}

// The option or the command with this name.
#[tactic(auto, unfolding(crate::specs::Names::named))]
pub fn find(word: &[u8]) -> Option<Named>
    ensures { result ≡ named word.now }
{
    let t = table();
    meaning(number_in(&t, word))
}

impl Switch {
    // The largest number that an option takes, where it takes one.
    pub fn most(self) -> Option<usize>
        ensures { result ≡ most_of self }
    {
        match self {
            Switch::Edition => Some(EDITIONS),
            Switch::Chunk | Switch::Tick => Some(limit::OCTETS),
            Switch::Slots => Some(limit::SLOTS),
            _ => None,
        }
    }

    // An option's place among the values: its number in the table, or 0 for one that this program has not.
    pub(crate) fn place(self) -> usize
        ensures { (result ≡ place_of self) × (result < options_end) }
    {
        match self {
            Switch::Edition => 1,
            Switch::Chunk => 2,
            Switch::Tick => 3,
            Switch::Slots => 4,
            Switch::AsRead => 5,
            Switch::Rfc6350 => 6,
            Switch::Bars => 7,
            Switch::All => 8,
            Switch::Quiet => 9,
            Switch::Json => 10,
            Switch::Help => 11,
            Switch::Version => 12,
            Switch::Other(_) => 0,
        }
    }
}
