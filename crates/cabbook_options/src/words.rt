// What the words of a command line say, one word after the other.
ghost use Rattle.std.specs.Prelude.{◌≡◌, ◌≤◌, length, is_some};
ghost use Rattle.cabbook_options.specs.Words.{begun, value_of, looks_like, name_length, number_for, wronged, numbered, filed, plainly, flagged, optioned, took};

use crate::command::Command;
use crate::names;
use crate::names::{Named, Switch};
use octets::cases::same_name;
use octets::slices::part;

// As many files as are told apart from two.
const MANY: usize = 3;

// What may be wrong with a word.
#[derive(Clone, Copy, Debug, PartialEq, Eq)]
pub enum Fault {
    // There is no such command.
    NoCommand,
    // There is no such option.
    NoOption,
    // An option has a value and takes none.
    NoValue,
    // An option's number is none that it takes.
    NoNumber,
    // Something else, by a number.
    Other(usize),
}

// What words say so far: the command, and the argument that names it, 0 before it; how many files are named, as far as they are counted; the argument that ends
// the options; the option that waits for its number; what is wrong, and the argument, 0 where nothing is; and of each option that is named, at its place, the
// number that it is set to, 1 where it takes none.
#[derive(Clone, Copy, Debug, PartialEq, Eq)]
pub struct Words {
    pub command: Option<Command>,
    pub named_by: usize,
    pub files: usize,
    pub dashes: Option<usize>,
    pub waits: Option<Switch>,
    pub fault: Option<Fault>,
    pub wrong: usize,
    pub values: [Option<usize>; names::OPTIONS],
}

// Before the first word.
pub fn begin() -> Words
    ensures { result ≡ begun }
{
    Words {
        command: None,
        named_by: 0,
        files: 0,
        dashes: None,
        waits: None,
        fault: None,
        wrong: 0,
        values: [None; names::OPTIONS],
    }
}

impl Words {
    // The number that an option is set to, 1 where it takes none.
    pub fn value(&self, switch: Switch) -> Option<usize>
        ensures { result ≡ value_of self.now switch }
    {
        self.values[switch.place()]
    }

    // Whether an option is named.
    pub fn has(&self, switch: Switch) -> bool
        ensures { result ≡ is_some (value_of self.now switch) }
    {
        self.value(switch).is_some()
    }
}

// Whether a word looks like an option: a dash, and more behind it.
#[tactic(auto, unfolding(crate::specs::Words::looks_like))]
pub fn is_option(word: &[u8]) -> bool
    ensures { result ≡ looks_like word.now }
{
    matches!(word, [b'-', _, ..])
}

// Where an option's name ends: at the first `=`, or at the word's end.
fn name_end(word: &[u8]) -> usize
    ensures { (result ≡ name_length word.now) × (result ≤ length word.now) }
{
    word.iter()
        .position(|octet| *octet == b'=')
        .unwrap_or(word.len())
}

// Something is wrong at argument i.
fn blame(mut w: Words, fault: Fault, i: usize) -> Words
    ensures { result ≡ wronged fault i w }
{
    w.fault = Some(fault);
    w.wrong = i;
    w
}

// The number that a word has in decimal digits, where the option takes it.
#[tactic(auto, unfolding(crate::specs::Words::number_for))]
fn number_for(switch: Switch, word: &[u8]) -> Option<usize>
    ensures { result ≡ number_for switch word.now }
{
    let n = program_numbers::decimal::number_of(word)?;
    if n == 0 || n > switch.most()? {
        return None;
    }
    Some(n)
}

// An option's number is this word. An option that this program has not goes on waiting.
#[tactic(auto, unfolding(crate::specs::Words::numbered))]
fn take_number(mut w: Words, i: usize, switch: Switch, word: &[u8]) -> Words
    ensures { result ≡ numbered switch i word.now w }
{
    w.waits = Some(switch);
    if let Switch::Other(_) = switch {
        return w;
    }
    let Some(n) = number_for(switch, word) else {
        return blame(w, Fault::NoNumber, i);
    };
    w.waits = None;
    w.values[switch.place()] = Some(n);
    w
}

// One file more, as far as they are counted.
fn add_file(mut w: Words) -> Words
    ensures { result ≡ filed w }
{
    if w.files < MANY {
        w.files += 1;
    }
    w
}

// A word that is no option: the command's name, or after that a file's.
#[tactic(auto, unfolding(crate::specs::Words::plainly))]
fn take_plain(mut w: Words, i: usize, word: &[u8]) -> Words
    ensures { result ≡ plainly i word.now w }
{
    if w.command.is_some() {
        return add_file(w);
    }
    let Some(Named::ACommand(command)) = names::find(word) else {
        return blame(w, Fault::NoCommand, i);
    };
    w.command = Some(command);
    w.named_by = i;
    w
}

// An option that is named without a value: it is set, or waits for its number. An option that this program has not changes nothing.
#[tactic(auto, unfolding(crate::specs::Words::flagged))]
fn take_flag(mut w: Words, switch: Switch) -> Words
    ensures { result ≡ flagged switch w }
{
    if switch.most().is_some() {
        w.waits = Some(switch);
        return w;
    }
    if switch.place() > 0 {
        w.values[switch.place()] = Some(1);
    }
    w
}

// A word that looks like an option.
#[tactic(auto, unfolding(crate::specs::Words::optioned))]
fn take_option(w: Words, i: usize, word: &[u8]) -> Words
    ensures { result ≡ optioned i word.now w }
{
    let end = name_end(word);
    let Some(Named::AnOption(switch)) = names::find(part(word, 0, end)) else {
        return blame(w, Fault::NoOption, i);
    };
    if end == word.len() {
        return take_flag(w, switch);
    }
    if switch.most().is_none() {
        return blame(w, Fault::NoValue, i);
    }
    take_number(w, i, switch, part(word, end + 1, word.len()))
}

// What the words say with one more, argument i.
#[tactic(auto, unfolding(crate::specs::Words::took, octets::specs::Ascii::octets))]
pub fn take(mut w: Words, i: usize, word: &[u8]) -> Words
    ensures { result ≡ took i word.now w }
{
    if let Some(_) = w.fault {
        return w;
    }
    if let Some(switch) = w.waits {
        return take_number(w, i, switch, word);
    }
    if let Some(_) = w.dashes {
        return take_plain(w, i, word);
    }
    if !is_option(word) {
        return take_plain(w, i, word);
    }
    if same_name(word, b"--") {
        if i > 0 {
            w.dashes = Some(i);
        }
        return w;
    }
    take_option(w, i, word)
}
