// What a command prints: pages, the lines on a refusal; and how a command ends, where output can't be written too.
#![tactic(auto)]

ghost use Rattle.std.specs.Prelude.{◌≡◌, IfOk, is_ok};
ghost use Rattle.cabbook_tables.specs.Statuses as status;
ghost use Rattle.cabbook_output.specs.Ends.{Status};

use cabbook_tables::status;
use numbers::refusal::{Reason, Refusal};
use program_host::Host;

// Standard output can't be written, which is told at the end.
#[derive(Clone, Copy, Debug, PartialEq, Eq)]
pub struct Unwritten;

// How a command ends: with an exit status, or because standard output can't be written.
pub type Ended = Result<u8, Unwritten>;

// A file that was read: its name and its octets.
#[derive(Clone, Copy, Debug, PartialEq, Eq)]
pub struct File<'a> {
    pub path: &'a [u8],
    pub octets: &'a [u8],
}

// Whether output was written.
pub fn written(done: bool) -> Result<(), Unwritten>
    ensures { is_ok result ≡ done }
{
    if done {
        return Ok(());
    }
    Err(Unwritten)
}

// Writes the first n octets of a page.
pub fn send(host: &mut Host, to: i32, room: &[u8], n: usize) -> Result<(), Unwritten> {
    written(host.write_all(to, octets::slices::part(room, 0, n)))
}

// Writes the first n octets of a page on a file that is refused, and answers the exit status.
fn refuse(host: &mut Host, to: i32, room: &[u8], n: usize) -> Ended
    ensures status { IfOk result Status }
    ensures value { IfOk result (λ s. s ≡ status.refused) }
{
    send(host, to, room, n)?;
    Ok(status::REFUSED)
}

// Adds that a line ends with blanks, where it does, since they can't be seen.
fn put_blanks(room: &mut [u8], at: usize, line: &[u8]) -> usize {
    match line {
        [.., b' ' | b'\t'] => {
            program_output::put_all(room, at, b"    (blanks at the end of the line)\n")
        }
        _ => at,
    }
}

// Adds the row of a file that is refused, and the logical line in which the place lies, with a caret.
fn put_refusal(room: &mut [u8], file: File, r: Refusal) -> usize {
    let Refusal(reason, place) = r;
    let row_end = cabbook_rows::rows::put_refused(room, 0, file.path, file.octets, r);
    if matches!(reason, Reason::TooLong | Reason::Empty) {
        return row_end;
    }
    let line = cabbook_rows::under::offending(file.octets, r);
    if line.len() > 0 {
        let under_end = cabbook_rows::under::put_under(room, row_end, file.octets, r);
        return put_blanks(room, under_end, line);
    }
    if place < file.octets.len() {
        return program_output::put_all(room, row_end, b"    (an empty line)\n");
    }
    program_output::put_all(room, row_end, b"    (the end of the file)\n")
}

// Prints what is to be known of a refused file, and answers the exit status.
pub fn print_refusal(host: &mut Host, to: i32, file: File, r: Refusal) -> Ended
    ensures { IfOk result Status }
{
    let mut room = program_host::large_buffer();
    let n = put_refusal(&mut room, file, r);
    refuse(host, to, &room, n)
}

// Prints the row of a text that is refused, and answers the exit status.
pub fn print_refused(host: &mut Host, to: i32, file: File, r: Refusal) -> Ended
    ensures { IfOk result Status }
{
    let mut room = program_host::large_buffer();
    let n = cabbook_rows::rows::put_refused(&mut room, 0, file.path, file.octets, r);
    refuse(host, to, &room, n)
}
