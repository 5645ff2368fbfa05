// `v3in` and `v3out`: a card of version 3 as one of version 4, and back; and why a card does not go over, by what stands there.
#![tactic(auto)]

mod reasons;

ghost use Rattle.std.specs.Prelude.{IfOk};
ghost use Rattle.cabbook_output.specs.Ends.{Status};

use cabbook_messages::sentences;
use cabbook_output::{Ended, File, Unwritten};
use cabbook_tables::status;
use numbers::limit;
use numbers::refusal::{Reason, Refusal};
use octets::cases::same_name;
use octets::slices::part;
use program_host::{Host, STDERR, STDOUT};
use program_output::put_all;
use version3_parameters::Way;

// The line of version 3 that says so.
const VERSION_LINE: usize = 13;

// What is said of a file of version 3 that is taken in, and of one that is not.
const TAKEN_IN: &[u8] = b": of version 3.0, and `cabbook v3in` takes it in\n";

const ONCE_MENDED: &[u8] =
    b": of version 3.0, and `cabbook v3in` takes it in once this is mended:\n";

// Writes a card as the other version has it to room.
fn write(way: Way, s: &[u8], room: &mut [u8]) -> Result<usize, Refusal> {
    match way {
        Way::Inward => version3::take_in(s, room),
        Way::Outward => version3::give_out(s, room),
    }
}

// Whether a refusal is of a line that the reader would take otherwise: 50 and 51, and what is in order in cards that are taken in.
fn is_own(way: Way, s: &[u8], r: Refusal) -> bool {
    match r {
        Refusal(Reason::NotTakenIn | Reason::NotGivenOut, _) => true,
        Refusal(Reason::Order, place) => way == Way::Inward && place < s.len(),
        _ => false,
    }
}

// Adds the row of a card that does not go over, its line, and a caret.
fn put_refusal(room: &mut [u8], way: Way, file: File, r: Refusal) -> usize {
    let where_end = cabbook_rows::rows::put_where(room, 0, file.path, file.octets, r.1);
    let start = put_all(room, where_end, b"refused ");
    let number_end = sentences::put_amount(room, start, r.0.number() as usize, b": ");
    let why_end = reasons::put_why(room, number_end, way, file.octets, r);
    let row_end = put_all(room, why_end, b"\n");
    cabbook_rows::under::put_under(room, row_end, file.octets, r)
}

// Prints what is to be known of a card that does not go over, as `check` prints it, and answers the exit status.
fn print_refusal(host: &mut Host, to: i32, way: Way, file: File, r: Refusal) -> Ended
    ensures { IfOk result Status }
{
    if r.0 == Reason::FormTooLong {
        return cabbook_output::print_refused(host, to, file, r);
    }
    if !is_own(way, file.octets, r) {
        return cabbook_output::print_refusal(host, to, file, r);
    }
    let mut room = program_host::large_buffer();
    let n = put_refusal(&mut room, way, file, r);
    cabbook_output::send(host, to, &room, n)?;
    Ok(status::REFUSED)
}

// Writes a card as the other version has it to standard output, or what is to be known of a refusal, and answers the exit status.
pub fn convert(host: &mut Host, way: Way, file: File) -> Ended
    ensures { IfOk result Status }
{
    let mut room = [0u8; limit::OCTETS];
    match write(way, file.octets, &mut room) {
        Ok(n) => {
            cabbook_output::send(host, STDOUT, &room, n)?;
            Ok(status::ACCEPTED)
        }
        Err(r) => print_refusal(host, STDERR, way, file, r),
    }
}

// Whether the line VERSION:3.0 starts at i.
fn is_version_line(s: &[u8], i: usize) -> bool {
    if s.len() - i.min(s.len()) < VERSION_LINE {
        return false;
    }
    same_name(part(s, i, i + VERSION_LINE), b"VERSION:3.0\r\n")
}

// Whether a text has the line VERSION:3.0.
fn has_version_line(s: &[u8]) -> bool {
    for (i, octet) in s.iter().enumerate() {
        if *octet == b'\n' && is_version_line(s, i + 1) {
            return true;
        }
    }
    false
}

// Whether the reader refuses a text since it is of version 3: at VERSION:3.0, or since VERSION is not the second line.
pub fn is_version3(s: &[u8], r: Refusal) -> bool {
    match r.0 {
        Reason::Order => has_version_line(s),
        Reason::Value => is_version_line(s, cabbook_positions::line_start(s, r.1)),
        _ => false,
    }
}

// Prints a line on a file.
fn print_line(host: &mut Host, path: &[u8], words: &[u8]) -> Result<(), Unwritten> {
    let mut room = program_host::large_buffer();
    let name_end = program_visible::put_visible(&mut room, 0, path);
    let n = put_all(&mut room, name_end, words);
    cabbook_output::send(host, STDOUT, &room, n)
}

// Prints whether a text of version 3 is taken in, and why it is not, and answers the exit status of a file that is refused.
pub fn print_advice(host: &mut Host, file: File) -> Ended
    ensures { IfOk result Status }
{
    let mut room = [0u8; limit::OCTETS];
    let Err(r) = version3::take_in(file.octets, &mut room) else {
        print_line(host, file.path, TAKEN_IN)?;
        return Ok(status::REFUSED);
    };
    print_line(host, file.path, ONCE_MENDED)?;
    print_refusal(host, STDOUT, Way::Inward, file, r)
}
