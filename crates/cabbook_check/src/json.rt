// What `check` found of a file as an object of JSON, one a line, with its refusals in a list.
ghost use Rattle.std.specs.Prelude.{IfOk};
ghost use Rattle.cabbook_output.specs.Ends.{Status};

use cabbook_messages::sentences::put_amount;
use cabbook_output::{Ended, File, Unwritten};
use cabbook_tables::status;
use numbers::refusal::Refusal;
use octets::slices::part;
use program_host::{Host, STDOUT};
use program_output::{put, put_all};
use reader::Counts;

// Adds an octet of a text between quote marks.
fn put_octet(room: &mut [u8], at: usize, octet: u8) -> usize {
    match octet {
        b'\t' => put_all(room, at, b"\\t"),
        b'"' => put_all(room, at, b"\\\""),
        b'\\' => put_all(room, at, b"\\\\"),
        _ => put(room, at, octet),
    }
}

// Adds a text that has no controls but tabs between quote marks.
fn put_quoted(room: &mut [u8], at: usize, text: &[u8]) -> usize {
    let mut next = put(room, at, b'"');
    for octet in text {
        next = put_octet(room, next, *octet);
    }
    put(room, next, b'"')
}

// Adds the start of a file's object: its name, made visible.
fn put_file(room: &mut [u8], path: &[u8]) -> usize {
    let mut shown = program_host::large_buffer();
    let n = program_visible::put_visible(&mut shown, 0, path);
    let start = put_all(room, 0, b"{\"file\":");
    put_quoted(room, start, part(&shown, 0, n))
}

// Prints the object of a file with so many cards and lines, and answers the exit status.
pub(crate) fn print_accepted(host: &mut Host, path: &[u8], counts: Counts) -> Ended
    ensures { IfOk result Status }
{
    let mut room = program_host::large_buffer();
    let file = put_file(&mut room, path);
    let verdict = put_all(&mut room, file, b",\"accepted\":true,\"cards\":");
    let lines = put_amount(&mut room, verdict, counts.cards, b",\"lines\":");
    let n = put_amount(&mut room, lines, counts.lines, b"}\n");
    cabbook_output::send(host, STDOUT, &room, n)?;
    Ok(status::ACCEPTED)
}

// Adds where a file is refused: the octet, the line and the column.
fn put_place(room: &mut [u8], at: usize, s: &[u8], place: usize) -> usize {
    let octet = put_amount(room, at, place, b",\"line\":");
    let line = put_amount(
        room,
        octet,
        cabbook_rows::rows::line_of(s, place),
        b",\"column\":",
    );
    put_amount(
        room,
        line,
        cabbook_rows::rows::column_of(s, place),
        b",\"words\":",
    )
}

// Adds a refusal of octets, as an object.
fn put_refusal(room: &mut [u8], at: usize, s: &[u8], r: Refusal) -> usize {
    let Refusal(reason, place) = r;
    let mut words = program_host::buffer();
    let k = cabbook_rows::faults::put_why(&mut words, 0, s, r);
    let start = put_all(room, at, b"{\"refusal\":");
    let refusal = put_amount(room, start, reason.number() as usize, b",\"octet\":");
    let octet = put_place(room, refusal, s, place);
    let why = put_quoted(room, octet, part(&words, 0, k));
    put_all(room, why, b"}")
}

// Adds the start of the object of a refused file, with its first refusal.
fn put_first(room: &mut [u8], file: File, r: Refusal) -> usize {
    let name = put_file(room, file.path);
    let start = put_all(room, name, b",\"accepted\":false,\"refusals\":[");
    put_refusal(room, start, file.octets, r)
}

// Prints the start of the object of a refused file, with its first refusal.
pub(crate) fn print_first(host: &mut Host, file: File, r: Refusal) -> Result<(), Unwritten> {
    let mut room = program_host::large_buffer();
    let n = put_first(&mut room, file, r);
    cabbook_output::send(host, STDOUT, &room, n)
}

// Prints one refusal more of a file.
pub(crate) fn print_next(host: &mut Host, s: &[u8], r: Refusal) -> Result<(), Unwritten> {
    let mut room = program_host::large_buffer();
    let start = put_all(&mut room, 0, b",");
    let n = put_refusal(&mut room, start, s, r);
    cabbook_output::send(host, STDOUT, &room, n)
}

// Prints the end of the object of a refused file.
pub(crate) fn print_end(host: &mut Host) -> Result<(), Unwritten> {
    cabbook_output::written(host.write_all(STDOUT, b"]}\n"))
}

// Prints the object of a file with one refusal, and answers the exit status.
pub(crate) fn print_refused(host: &mut Host, file: File, r: Refusal) -> Ended
    ensures { IfOk result Status }
{
    let mut room = program_host::large_buffer();
    let first = put_first(&mut room, file, r);
    let n = put_all(&mut room, first, b"]}\n");
    cabbook_output::send(host, STDOUT, &room, n)?;
    Ok(status::REFUSED)
}
