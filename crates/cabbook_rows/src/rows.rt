// The row of a file: what it holds, or where and why it is refused.
ghost use Rattle.std.specs.Prelude.{◌≡◌};
ghost use Rattle.numbers.specs.Refusals.{number};
ghost use Rattle.program_output.specs.Pages.{page, added};
ghost use Rattle.cabbook_rows.specs.Rows.{named, accepted_row, line_of, column_of, location, refused_row};

use crate::faults;
use cabbook_messages::sentences;
use numbers::refusal::Refusal;

// Adds the start of a file's row, its name.
fn put_name(room: &mut [u8], at: usize, path: &[u8]) -> usize
    ensures { page result room.new ≡ added (named path.now) (page at room.old) }
{
    let path_end = program_visible::put_visible(room, at, path);
    program_output::put_all(room, path_end, b": ")
}

// Adds the row of a file with so many cards and lines.
pub fn put_accepted(room: &mut [u8], at: usize, path: &[u8], cards: usize, lines: usize) -> usize
    ensures { page result room.new ≡ added (accepted_row path.now cards lines) (page at room.old) }
{
    let name_end = put_name(room, at, path);
    let cards_end = sentences::put_count(room, name_end, cards, b" card");
    let comma_end = program_output::put_all(room, cards_end, b", ");
    let lines_end = sentences::put_count(room, comma_end, lines, b" line");
    program_output::put_all(room, lines_end, b"\n")
}

// The number of the line in which a place lies; of the last line where the place is past the end.
pub fn line_of(s: &[u8], place: usize) -> usize
    ensures { result ≡ line_of s.now place }
{
    let end = octets::slices::least(place, s.len());
    cabbook_positions::line_number(octets::slices::part(s, 0, end))
}

// The column of a place in its physical line, by characters from 1 on.
pub fn column_of(s: &[u8], place: usize) -> usize
    ensures { result ≡ column_of s.now place }
{
    let end = octets::slices::least(place, s.len());
    let start = cabbook_positions::row_start(s, place);
    cabbook_positions::characters(octets::slices::part(s, start, end)) + 1
}

// Adds where a place lies in a file, as `FILE:LINE:COLUMN: `.
pub fn put_where(room: &mut [u8], at: usize, path: &[u8], s: &[u8], place: usize) -> usize
    ensures { page result room.new ≡ added (location path.now s.now place) (page at room.old) }
{
    let path_end = program_visible::put_visible(room, at, path);
    let colon_end = program_output::put_all(room, path_end, b":");
    let line_end = sentences::put_amount(room, colon_end, line_of(s, place), b":");
    sentences::put_amount(room, line_end, column_of(s, place), b": ")
}

// Adds the row of a file with these octets that is refused.
pub fn put_refused(room: &mut [u8], at: usize, path: &[u8], s: &[u8], r: Refusal) -> usize
    ensures { page result room.new ≡ added (refused_row path.now s.now (number r.0) r.1) (page at room.old) }
{
    let Refusal(reason, place) = r;
    let where_end = put_where(room, at, path, s, place);
    let start = program_output::put_all(room, where_end, b"refused ");
    let number_end = sentences::put_amount(room, start, reason.number() as usize, b": ");
    let why_end = faults::put_why(room, number_end, s, r);
    program_output::put_all(room, why_end, b"\n")
}
