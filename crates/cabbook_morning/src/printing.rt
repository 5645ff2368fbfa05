// The rows of a morning, on standard output.
ghost use Rattle.std.specs.Prelude.{◌≡◌, ◌≤◌};
ghost use Rattle.cabbook_tables.specs.Statuses as status;
ghost use Rattle.cabbook_tables.specs.Uploads.{status_of};

use cabbook_tables::uploads;
use program_host::{Host, STDOUT};
use reader::Verdict;

// Writes the first n octets of a page to standard output.
fn send(host: &mut Host, room: &[u8], n: usize) {
    host.write_all(STDOUT, octets::slices::part(room, 0, n));
}

// Prints the names of the columns.
pub(crate) fn print_titles(host: &mut Host, width: usize) {
    let mut room = program_host::buffer();
    let n = uploads::put_titles(&mut room, 0, width);
    send(host, &room, n);
}

// Prints the row of the upload of the file that argument i names.
pub(crate) fn print_row(
    host: &mut Host,
    i: usize,
    width: usize,
    ticket: u32,
    octets: usize,
    v: Verdict,
    same: bool,
) {
    let mut path = program_host::buffer();
    let k = host.arg(i, &mut path);
    let mut room = program_host::large_buffer();
    let n = uploads::put_upload(
        &mut room,
        0,
        &path[..k],
        width,
        ticket as usize,
        octets,
        v,
        same,
    );
    send(host, &room, n);
}

// Prints the last line, with the counts, and answers the exit status.
pub fn print_summary(
    host: &mut Host,
    accepted: usize,
    refused: usize,
    reclaimed: usize,
    unread: usize,
    differing: usize,
) -> u8
    ensures value { result ≡ status_of refused differing unread }
    ensures upper_bound { result ≤ status.failed }
{
    let mut room = program_host::buffer();
    let n = uploads::put_summary(
        &mut room, 0, accepted, refused, reclaimed, differing, unread,
    );
    send(host, &room, n);
    uploads::status_of(refused, differing, unread)
}
