// What to do: the help, and the few lines after a wrong use.
ghost use Rattle.std.specs.Prelude.{◌≡◌, ◌≤◌, IfOk};
ghost use Rattle.cabbook_output.specs.Ends.{Status};
ghost use Rattle.cabbook_tables.specs.Statuses as status;

use cabbook_options::command::{COMMANDS, Command};
use cabbook_output::Ended;
use cabbook_tables::status;
use program_host::{Host, STDERR, STDOUT};
use program_output::put_all;

// How wide the column of the calls is, with the space after it.
const CALLS: usize = 35;

// Adds how a command is called, and in the next column, or under it where it is long, what it does.
fn put_command(room: &mut [u8], at: usize, call: &[u8], words: &[u8]) -> usize {
    let start = put_all(room, at, b"  ");
    if call.len() <= CALLS {
        let call_end = cabbook_columns::put_column(room, start, call, CALLS);
        let words_end = put_all(room, call_end, words);
        return put_all(room, words_end, b"\n");
    }
    let call_end = put_all(room, start, call);
    let line_end = put_all(room, call_end, b"\n");
    let indent = program_output::put_spaces(room, line_end, CALLS + 3);
    let words_end = put_all(room, indent, words);
    put_all(room, words_end, b"\n")
}

// Adds the line on a command on texts, or on many files.
fn put_other_line(room: &mut [u8], at: usize, command: Command) -> usize {
    match command {
        Command::Escape => put_command(
            room,
            at,
            b"cabbook escape [FILE]",
            b"text with its escapes",
        ),
        Command::Unescape => put_command(
            room,
            at,
            b"cabbook unescape [FILE]",
            b"the text that escapes stand for",
        ),
        Command::Encode => put_command(
            room,
            at,
            b"cabbook encode [--rfc6350] [FILE]",
            b"a value as a label, by RFC 6868 or RFC 6350",
        ),
        Command::Decode => put_command(
            room,
            at,
            b"cabbook decode [--rfc6350] [FILE]",
            b"the value that a label stands for",
        ),
        Command::Report => put_command(
            room,
            at,
            b"cabbook report [--bars] FILE..",
            b"the counts of the files' judgements",
        ),
        Command::V3in => put_command(
            room,
            at,
            b"cabbook v3in FILE",
            b"a card of version 3.0 as one of version 4.0",
        ),
        Command::V3out => put_command(
            room,
            at,
            b"cabbook v3out FILE",
            b"a card as one of version 3.0, for the older sets",
        ),
        Command::Watch => put_command(
            room,
            at,
            b"cabbook watch [--chunk N] FILE..",
            b"judge each file while it arrives, N octets at a time",
        ),
        Command::Merge => put_command(
            room,
            at,
            b"cabbook merge FILE FILE",
            b"two edits of one card side by side, by their PIDs",
        ),
        _ => put_command(room, at, b"cabbook help", b"this"),
    }
}

// Adds the line on a command.
fn put_line(room: &mut [u8], at: usize, command: Command) -> usize {
    match command {
        Command::Check => put_command(
            room,
            at,
            b"cabbook check [--edition N] [--all] [--quiet] [--json] FILE..",
            b"judge each file, or with --all each card; a caret shows the octet",
        ),
        Command::Show => put_command(
            room,
            at,
            b"cabbook show [--edition N] FILE",
            b"the cards as a table",
        ),
        Command::Fold => put_command(
            room,
            at,
            b"cabbook fold [--edition N] [--as-read] FILE",
            b"the cards folded, names in capitals or as read",
        ),
        Command::Morning => put_command(
            room,
            at,
            b"cabbook morning [--chunk N] [--tick N] [--slots N] FILE..",
            b"forty uploads at a time on one desk",
        ),
        _ => put_other_line(room, at, command),
    }
}

// Adds the lines on all commands.
fn put_lines(room: &mut [u8], at: usize) -> usize {
    let mut next = at;
    for command in COMMANDS {
        next = put_line(room, next, command);
    }
    next
}

// Adds what the tool is, and the lines on all commands.
fn put_help(room: &mut [u8]) -> usize {
    let title = put_all(
        room,
        0,
        b"cabbook reads and checks the phone books of cab telephones (vCard 4.0).\n\n",
    );
    let lines = put_lines(room, title);
    let refusals = put_all(
        room,
        lines,
        b"\nA refusal is FILE:LINE:COLUMN: refused NUMBER: WORDS, so that editors can jump to it.\n",
    );
    let options = put_all(
        room,
        refusals,
        b"Options stand anywhere, as --chunk 5 or --chunk=5, up to --; --help and --version too.\n",
    );
    let statuses = put_all(
        room,
        options,
        b"FILE - is standard input. Exit status: 0 all accepted, 1 something refused,\n",
    );
    put_all(
        room,
        statuses,
        b"2 wrong use or a file that can't be read. Edition 1 is RFC 6350, 2 RFC 9554; 1 where none is named.\n",
    )
}

// Adds the help: on a command where one is named.
fn put_help_on(room: &mut [u8], command: Option<Command>) -> usize {
    match command {
        None | Some(Command::Help) => put_help(room),
        Some(one) => put_line(room, 0, one),
    }
}

// Prints the help on standard output: on a command where one is named.
pub(crate) fn print_help(host: &mut Host, command: Option<Command>) -> Ended
    ensures { IfOk result Status }
{
    let mut room = program_host::buffer();
    let n = put_help_on(&mut room, command);
    cabbook_output::send(host, STDOUT, &room, n)?;
    Ok(status::ACCEPTED)
}

// Prints the tool's name and version.
pub(crate) fn print_version(host: &mut Host) -> Ended
    ensures { IfOk result Status }
{
    cabbook_output::written(host.write_all(STDOUT, b"cabbook 2, of Gerstebolk\n"))?;
    Ok(status::ACCEPTED)
}

// Prints what was wrong and what to do on standard error: how the command is called, or all where none is named.
pub(crate) fn print_usage(host: &mut Host, what: &[u8], command: Option<Command>) -> u8
    ensures { result ≡ status.failed }
{
    let mut room = program_host::large_buffer();
    let start = put_all(&mut room, 0, b"cabbook: ");
    let what_end = put_all(&mut room, start, what);
    let use_end = put_all(&mut room, what_end, b"; use it as\n");
    let n = put_use(&mut room, use_end, command);
    let _ = cabbook_output::send(host, STDERR, &room, n);
    status::FAILED
}

// Adds how a command is called, or all where none is named.
fn put_use(room: &mut [u8], at: usize, command: Option<Command>) -> usize {
    match command {
        Some(one) => put_line(room, at, one),
        None => put_lines(room, at),
    }
}

// Prints on standard error that a word is wrong, why, and what to do.
pub(crate) fn print_wrong(host: &mut Host, word: &[u8], why: &[u8], command: Option<Command>) -> u8
    ensures { result ≡ status.failed }
{
    let mut room = program_host::large_buffer();
    let start = put_all(&mut room, 0, b"cabbook: ");
    let word_end = program_visible::put_visible(&mut room, start, word);
    let why_end = put_all(&mut room, word_end, why);
    let use_end = put_all(&mut room, why_end, b"; use it as\n");
    let n = put_use(&mut room, use_end, command);
    let _ = cabbook_output::send(host, STDERR, &room, n);
    status::FAILED
}
