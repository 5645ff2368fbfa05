// `check`: a row a file, and under each refusal its logical line and what would help; or an object of JSON; or nothing but the status.
#![tactic(auto)]

mod json;

ghost use Rattle.std.specs.Prelude.{IfOk};
ghost use Rattle.cabbook_output.specs.Ends.{Status};

use cabbook_output::{Ended, File, Unwritten};
use cabbook_tables::status;
use numbers::limit;
use numbers::refusal::{Reason, Refusal};
use octets::cases::same_name;
use octets::slices::part;
use program_host::{Host, STDOUT};
use property_table::Edition;
use reader::{Counts, Verdict};

// What is printed: rows, objects of JSON, or nothing.
#[derive(Clone, Copy, Debug, PartialEq, Eq)]
pub enum Manner {
    Rows,
    Json,
    Quiet,
}

// Prints the row of a file with so many cards and lines, and answers the exit status.
fn print_accepted(host: &mut Host, path: &[u8], counts: Counts) -> Ended
    ensures { IfOk result Status }
{
    let mut room = program_host::large_buffer();
    let n = cabbook_rows::rows::put_accepted(&mut room, 0, path, counts.cards, counts.lines);
    cabbook_output::send(host, STDOUT, &room, n)?;
    Ok(status::ACCEPTED)
}

// Prints what is to be known of a refused file, of one that is too long its size, of one of version 3 whether it is taken in, and answers the exit status.
fn print_refused(host: &mut Host, file: File, r: Refusal) -> Ended
    ensures { IfOk result Status }
{
    let status = cabbook_output::print_refusal(host, STDOUT, file, r)?;
    if r.0 == Reason::TooLong {
        cabbook_sizes::print_size(host, file.path)?;
        return Ok(status);
    }
    if !cabbook_version3::is_version3(file.octets, r) {
        return Ok(status);
    }
    cabbook_version3::print_advice(host, file)
}

// Prints the verdict on a file in rows, and answers the exit status.
pub fn print_verdict(host: &mut Host, file: File, v: Verdict) -> Ended
    ensures { IfOk result Status }
{
    match v {
        Ok(counts) => print_accepted(host, file.path, counts),
        Err(r) => print_refused(host, file, r),
    }
}

// Tells the verdict on a file as an object of JSON, and answers the exit status.
fn tell_json(host: &mut Host, file: File, v: Verdict) -> Ended
    ensures { IfOk result Status }
{
    match v {
        Ok(counts) => json::print_accepted(host, file.path, counts),
        Err(r) => json::print_refused(host, file, r),
    }
}

// The exit status of a verdict.
fn status_of(v: Verdict) -> u8
    ensures { Status result }
{
    match v {
        Ok(_) => status::ACCEPTED,
        Err(_) => status::REFUSED,
    }
}

// Tells the verdict on a file, and answers the exit status.
fn tell(host: &mut Host, manner: Manner, file: File, v: Verdict) -> Ended
    ensures { IfOk result Status }
{
    match manner {
        Manner::Rows => print_verdict(host, file, v),
        Manner::Json => tell_json(host, file, v),
        Manner::Quiet => Ok(status_of(v)),
    }
}

// Tells the first refusal of several cards.
fn tell_first(host: &mut Host, manner: Manner, file: File, r: Refusal) -> Result<(), Unwritten> {
    match manner {
        Manner::Rows => print_row(host, file, r),
        Manner::Json => json::print_first(host, file, r),
        Manner::Quiet => Ok(()),
    }
}

// Prints what is to be known of a refusal.
fn print_row(host: &mut Host, file: File, r: Refusal) -> Result<(), Unwritten> {
    cabbook_output::print_refusal(host, STDOUT, file, r)?;
    Ok(())
}

// Tells that there are no more refusals.
fn tell_end(host: &mut Host, manner: Manner) -> Result<(), Unwritten> {
    match manner {
        Manner::Json => json::print_end(host),
        Manner::Rows | Manner::Quiet => Ok(()),
    }
}

// Tells one refusal more of several cards.
fn tell_refused(host: &mut Host, manner: Manner, file: File, r: Refusal) -> Result<(), Unwritten> {
    match manner {
        Manner::Rows => print_row(host, file, r),
        Manner::Json => json::print_next(host, file.octets, r),
        Manner::Quiet => Ok(()),
    }
}

// Whether a card starts at i, behind a line's end.
fn starts_card(s: &[u8], i: usize) -> bool {
    if i == 0 {
        return false;
    }
    if i > s.len() {
        return false;
    }
    if s[i - 1] != b'\n' {
        return false;
    }
    same_name(part(part(s, i, s.len()), 0, 13), b"BEGIN:VCARD\r\n")
}

// The first place behind a place at which a card starts.
fn next_card(s: &[u8], after: usize) -> Option<usize> {
    (after..s.len()).map(|i| i + 1).find(|i| starts_card(s, *i))
}

// Judges the cards behind a refusal, one input for each that follows a refused one, and tells their refusals.
fn check_behind(
    host: &mut Host,
    edition: Edition,
    manner: Manner,
    file: File,
    place: usize,
) -> Result<(), Unwritten> {
    let s = file.octets;
    let mut after = place;
    for _ in 0..limit::OCTETS {
        let Some(from) = next_card(s, after) else {
            return Ok(());
        };
        let Err(r) = reader::judge_as(edition, part(s, from, s.len())) else {
            return Ok(());
        };
        after = from.saturating_add(r.1).min(s.len());
        tell_refused(host, manner, file, Refusal(r.0, after))?;
    }
    Ok(())
}

// Judges a file in an edition, tells what is found, and answers the exit status.
pub fn check(host: &mut Host, edition: Edition, manner: Manner, file: File) -> Ended
    ensures { IfOk result Status }
{
    tell(host, manner, file, reader::judge_as(edition, file.octets))
}

// Judges a file in an edition, tells what is found, of the cards behind a refused one too, and answers the exit status.
pub fn check_all(host: &mut Host, edition: Edition, manner: Manner, file: File) -> Ended
    ensures { IfOk result Status }
{
    let v = reader::judge_as(edition, file.octets);
    let Err(r) = v else {
        return tell(host, manner, file, v);
    };
    tell_first(host, manner, file, r)?;
    check_behind(host, edition, manner, file, r.1)?;
    tell_end(host, manner)?;
    Ok(status::REFUSED)
}
