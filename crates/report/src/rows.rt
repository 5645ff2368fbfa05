// The rows of a printed report: a name, a space, the count in decimal digits and LF.
ghost use Rattle.std.specs.Prelude.{◌≡◌, ◌<◌, length};
ghost use Rattle.numbers.specs.Counts as places;
ghost use Rattle.program_output.specs.Pages.{page, added};
ghost use Rattle.report_weights.specs.Counts.{count_at, counts};
ghost use Rattle.report.specs.Text.{name, has, shown, rows_of};

use crate::Counts;
use numbers::count;
use octets::indices::wide_number;
use program_output::digits::put_number;
use program_output::{put, put_all};

// More octets than the rows of a report have.
pub const PAGE: usize = 2560;

// Adds the name of one of the first five counts.
fn put_total(room: &mut [u8], at: usize, place: usize) -> usize
    requires { place < places.refusals }
    ensures { page result room.new ≡ added (name (count_at place)) (page at room.old) }
{
    if place == count::UPLOADS {
        return put_all(room, at, b"uploads");
    }
    if place == count::CARDS {
        return put_all(room, at, b"cards");
    }
    if place == count::LINES {
        return put_all(room, at, b"lines");
    }
    if place == count::OCTETS {
        return put_all(room, at, b"octets");
    }
    put_all(room, at, b"accepted")
}

// Adds the name of the count at a place.
fn put_name(room: &mut [u8], at: usize, place: usize) -> usize
    requires { place < places.all }
    ensures { page result room.new ≡ added (name (count_at place)) (page at room.old) }
{
    if place < count::REFUSALS {
        return put_total(room, at, place);
    }
    if place < count::PROPERTIES {
        let next = put(room, at, b'r');
        return put_number(room, next, wide_number(report_weights::refusal_at(place)));
    }
    let next = put(room, at, b'p');
    put_number(room, next, place - count::PROPERTIES)
}

// Whether the count at a place, which is n, has a row: the first five always, any other where it is not 0.
pub fn is_shown(place: usize, n: usize) -> bool
    ensures { result ≡ has (count_at place) n }
{
    if place < count::REFUSALS {
        return true;
    }
    n != 0
}

// Adds the row of the count at a place, which is n, where it has one.
pub fn put_row(room: &mut [u8], at: usize, place: usize, n: usize) -> usize
    requires { place < places.all }
    ensures { page result room.new ≡ added (shown (count_at place) n) (page at room.old) }
{
    if !is_shown(place, n) {
        return at;
    }
    let named = put_name(room, at, place);
    let spaced = put(room, named, b' ');
    let numbered = put_number(room, spaced, n);
    put(room, numbered, b'\n')
}

// Adds the rows of all counts.
pub fn put_rows(room: &mut [u8], values: &Counts) -> usize
    ensures { page result room.new ≡ added (rows_of counts values.now) (page 0 room.old) }
{
    let mut at: usize = 0;
    for (place, n) in values.iter().enumerate() {
        at = put_row(room, at, place, wide_number(*n));
    }
    at
}
