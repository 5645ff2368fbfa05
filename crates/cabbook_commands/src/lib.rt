// The commands of the workshop's tool, over the reader, the folder, text, labels, the desk and the report.
#![tactic(auto)]

mod reporting;
mod usage;
mod writing;
mod wrong;

ghost use Rattle.std.specs.Prelude.{IfOk};
ghost use Rattle.cabbook_output.specs.Ends.{Status};

use cabbook_check::Manner;
use cabbook_options::arguments;
use cabbook_options::command::Command;
use cabbook_options::names::Switch;
use cabbook_options::words::Words;
use cabbook_output::{Ended, File};
use cabbook_tables::status;
use folder_raising::Style;
use label_carets::Rule;
use numbers::limit;
use program_host::Host;
use property_table::Edition;
use version3_parameters::Way;
use writing::Form;

// What is done with the octets of a file.
#[derive(Clone, Copy, Debug, PartialEq, Eq)]
enum Task {
    Check(Edition, Manner),
    CheckAll(Edition, Manner),
    Show(Edition),
    Write(Form),
    Convert(Way),
}

// Does the task with a file, and answers the exit status.
fn apply(host: &mut Host, task: Task, file: File) -> Ended
    ensures { IfOk result Status }
{
    match task {
        Task::Check(edition, manner) => cabbook_check::check(host, edition, manner, file),
        Task::CheckAll(edition, manner) => cabbook_check::check_all(host, edition, manner, file),
        Task::Show(edition) => cabbook_show::show(host, edition, file),
        Task::Write(form) => writing::deliver(host, form, file),
        Task::Convert(way) => cabbook_version3::convert(host, way, file),
    }
}

// Does the task with the file of that name.
fn apply_to_file(host: &mut Host, task: Task, path: &[u8]) -> Ended
    ensures { IfOk result Status }
{
    let mut octets = [0u8; limit::READ_ROOM];
    let Some(n) = program_files::read(host, path, &mut octets) else {
        return Ok(status::FAILED);
    };
    let count = n.min(limit::READ_ROOM);
    let file = File {
        path,
        octets: &octets[..count],
    };
    apply(host, task, file)
}

// Does the task with the file that argument i names.
fn apply_to_argument(host: &mut Host, task: Task, i: usize) -> Ended
    ensures { IfOk result Status }
{
    let mut path = program_host::large_buffer();
    let Some(n) = host.whole_arg(i, &mut path) else {
        host.fail(b"cabbook: a file's name");
        return Ok(status::FAILED);
    };
    apply_to_file(host, task, &path[..n])
}

// Does the task with each file that is named, as long as output can be written, and answers the highest status.
fn apply_to_all(host: &mut Host, task: Task, w: Words, count: usize) -> Ended
    ensures { IfOk result Status }
{
    let mut status: u8 = status::ACCEPTED;
    let mut next = arguments::first_file(host, w, count);
    while let Some(i) = next {
        status = status.max(apply_to_argument(host, task, i)?);
        next = arguments::next_file(host, i + 1, w.dashes, count);
    }
    Ok(status)
}

// Does the task with the files that are named, or with standard input where none is.
fn apply_or_input(host: &mut Host, task: Task, w: Words, count: usize) -> Ended
    ensures { IfOk result Status }
{
    if w.files == 0 {
        return apply_to_file(host, task, b"-");
    }
    apply_to_all(host, task, w, count)
}

// The edition that is chosen, edition one where none is.
fn edition_of(w: Words) -> Edition {
    match w.value(Switch::Edition) {
        Some(2) => Edition::Second,
        _ => Edition::First,
    }
}

// The rule for labels that is chosen, that of RFC 6868 where none is.
fn rule_of(w: Words) -> Rule {
    if w.has(Switch::Rfc6350) {
        return Rule::Rfc6350;
    }
    Rule::Rfc6868
}

// The style of folding that is chosen, names in capitals where none is.
fn style_of(w: Words) -> Style {
    if w.has(Switch::AsRead) {
        return Style::AsRead;
    }
    Style::Raised
}

// What `check` prints, rows where nothing else is asked for.
fn manner_of(w: Words) -> Manner {
    if w.has(Switch::Quiet) {
        return Manner::Quiet;
    }
    if w.has(Switch::Json) {
        return Manner::Json;
    }
    Manner::Rows
}

// How files are judged: all their cards where that is asked for.
fn check_of(w: Words) -> Task {
    if w.has(Switch::All) {
        return Task::CheckAll(edition_of(w), manner_of(w));
    }
    Task::Check(edition_of(w), manner_of(w))
}

// Runs a morning of uploads, and then prints the report of its files.
fn run_morning(host: &mut Host, w: Words, count: usize) -> Ended
    ensures { IfOk result Status }
{
    let first = arguments::first_file(host, w, count);
    let status = cabbook_morning::play(
        host,
        first,
        w.dashes,
        count,
        w.value(Switch::Chunk),
        w.value(Switch::Tick),
        w.value(Switch::Slots),
    );
    reporting::print_after(host, w, count, status)
}

// Merges the two files that are named.
fn run_merge(host: &mut Host, w: Words, count: usize) -> Ended
    ensures { IfOk result Status }
{
    let Some(i) = arguments::first_file(host, w, count) else {
        return Ok(status::FAILED);
    };
    let j = arguments::next_file(host, i + 1, w.dashes, count).unwrap_or(count);
    cabbook_merge::merge_arguments(host, i, j)
}

// Runs the command that is named, with its options and files.
fn run(host: &mut Host, command: Command, w: Words, count: usize) -> Ended
    ensures { IfOk result Status }
{
    match command {
        Command::Check => apply_to_all(host, check_of(w), w, count),
        Command::Show => apply_to_all(host, Task::Show(edition_of(w)), w, count),
        Command::Fold => {
            let form = Form::Folded(edition_of(w), style_of(w));
            apply_to_all(host, Task::Write(form), w, count)
        }
        Command::Escape => apply_or_input(host, Task::Write(Form::Escaped), w, count),
        Command::Unescape => apply_or_input(host, Task::Write(Form::Unescaped), w, count),
        Command::Encode => apply_or_input(host, Task::Write(Form::Encoded(rule_of(w))), w, count),
        Command::Decode => apply_or_input(host, Task::Write(Form::Decoded(rule_of(w))), w, count),
        Command::V3in => apply_to_all(host, Task::Convert(Way::Inward), w, count),
        Command::V3out => apply_to_all(host, Task::Convert(Way::Outward), w, count),
        Command::Morning => run_morning(host, w, count),
        Command::Watch => {
            let first = arguments::first_file(host, w, count);
            cabbook_watch::watch_files(host, first, w.dashes, count, w.value(Switch::Chunk))
        }
        Command::Merge => run_merge(host, w, count),
        Command::Report => reporting::report_files(host, w, count),
        Command::Help | Command::Other(_) => usage::print_help(host, None),
    }
}

// Runs the command that the arguments name, and answers the exit status, or that standard output can't be written.
pub fn start(host: &mut Host) -> Ended
    ensures { IfOk result Status }
{
    let count = host.arg_count();
    let w = arguments::read(host, count);
    if w.fault.is_none() && w.has(Switch::Help) {
        return usage::print_help(host, w.command);
    }
    if w.fault.is_none() && w.has(Switch::Version) {
        return usage::print_version(host);
    }
    let Some(command) = wrong::right_command(host, w) else {
        return Ok(status::FAILED);
    };
    if arguments::names_input_twice(host, w, count) {
        return Ok(usage::print_usage(
            host,
            b"- stands twice, and standard input is read once",
            Some(command),
        ));
    }
    run(host, command, w, count)
}
