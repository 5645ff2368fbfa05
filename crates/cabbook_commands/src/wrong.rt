// What is wrong with the words of a command line: it is said, and what to do.
use crate::usage;
use cabbook_options::command::Command;
use cabbook_options::names::{SWITCHES, Switch};
use cabbook_options::words::{Fault, Words};
use program_host::Host;

// Whether a command takes an option; `--help`, `--version` and an option that this program has not stand with any.
fn takes(command: Command, switch: Switch) -> bool {
    match switch {
        Switch::Help | Switch::Version | Switch::Other(_) => true,
        Switch::Edition => matches!(command, Command::Check | Command::Show | Command::Fold),
        Switch::All | Switch::Quiet | Switch::Json => command == Command::Check,
        Switch::AsRead => command == Command::Fold,
        Switch::Rfc6350 => matches!(command, Command::Encode | Command::Decode),
        Switch::Chunk => matches!(command, Command::Morning | Command::Watch),
        Switch::Tick | Switch::Slots => command == Command::Morning,
        Switch::Bars => command == Command::Report,
    }
}

// Whether an option is set that the command does not take.
fn has_stray(w: Words, command: Command) -> bool {
    for switch in SWITCHES {
        if w.has(switch) && !takes(command, switch) {
            return true;
        }
    }
    false
}

// What is said where an option's number is none that it takes.
fn number_words(switch: Switch) -> &'static [u8] {
    match switch {
        Switch::Edition => b"--edition takes 1 or 2",
        Switch::Chunk => b"--chunk takes a number from 1 to 16,384",
        Switch::Tick => b"--tick takes a number from 1 to 16,384",
        _ => b"--slots takes a number from 1 to 40",
    }
}

// Says that the number of the option that waits is none that it takes.
fn print_number(host: &mut Host, w: Words) {
    let switch = w.waits.unwrap_or(Switch::Slots);
    usage::print_usage(host, number_words(switch), w.command);
}

// Says what is wrong with a word.
fn print_fault(host: &mut Host, w: Words, fault: Fault) {
    let mut word = program_host::buffer();
    let n = host.arg(w.wrong, &mut word);
    let word = &word[..n];
    match fault {
        Fault::NoCommand => {
            usage::print_wrong(host, word, b": there is no such command", None);
        }
        Fault::NoOption => {
            usage::print_wrong(host, word, b": there is no such option", w.command);
        }
        Fault::NoValue => {
            usage::print_wrong(host, word, b": this option takes no value", w.command);
        }
        Fault::NoNumber | Fault::Other(_) => print_number(host, w),
    }
}

// What is wrong with the count of files, if something is.
fn files_words(w: Words, command: Command) -> Option<&'static [u8]> {
    match command {
        Command::Check | Command::Morning | Command::Report | Command::Watch if w.files == 0 => {
            Some(b"this command needs a FILE")
        }
        Command::Merge if w.files != 2 => Some(b"this command takes two FILEs"),
        Command::Show | Command::Fold | Command::V3in | Command::V3out if w.files != 1 => {
            Some(b"this command takes one FILE")
        }
        Command::Escape
        | Command::Unescape
        | Command::Encode
        | Command::Decode
        | Command::Help
        | Command::Other(_)
            if w.files > 1 => { Some(b"this command takes one FILE") }
        _ => None,
    }
}

// What is wrong with the options and files of a command, if something is.
fn wrong_words(w: Words, command: Command) -> Option<&'static [u8]> {
    if has_stray(w, command) {
        return Some(b"this command does not take that option");
    }
    files_words(w, command)
}

// The command that is named, where nothing is wrong with the words; else says what is.
pub(crate) fn right_command(host: &mut Host, w: Words) -> Option<Command> {
    if let Some(fault) = w.fault {
        print_fault(host, w, fault);
        return None;
    }
    if w.waits.is_some() {
        print_number(host, w);
        return None;
    }
    let Some(command) = w.command else {
        usage::print_usage(host, b"a command is missing", None);
        return None;
    };
    if let Some(words) = wrong_words(w, command) {
        usage::print_usage(host, words, Some(command));
        return None;
    }
    Some(command)
}
