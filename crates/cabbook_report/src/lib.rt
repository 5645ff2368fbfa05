// A report for people who would rather look than read: a bar before each row.
#![tactic(auto)]

ghost use Rattle.std.specs.Prelude.{◌≡◌, ◌<◌, ◌≤◌};
ghost use Rattle.numbers.specs.Counts as places;
ghost use Rattle.numbers.specs.Limits as limit;
ghost use Rattle.program_output.specs.Pages.{page, added};
ghost use Rattle.report.specs.Steps.{all_places};
ghost use Rattle.cabbook_report.specs.Bars.{widest, bar_length, whole_of, barred, bars};

use numbers::count;
use octets::indices::wide_number;
use report::Counts;
use report::rows::{is_shown, put_row};

// The most marks of a bar.
const WIDEST: usize = 40;

// The octets of a bar's cell: as many marks or spaces, and a space.
const CELL: usize = WIDEST + 1;

// Marks and then spaces: each part of a cell's length is the cell of a bar.
const BARS: [u8; 81] =
    *b"########################################                                         ";

// How long the bar of a count that is n is, of the count that it is a part of: one that is not 0 has a mark.
fn bar_length(n: usize, whole: usize) -> usize
    requires { n ≤ limit.largest }
    ensures { (result ≡ bar_length n whole) × (result ≤ widest) }
{
    if n == 0 {
        return 0;
    }
    if whole <= n {
        return WIDEST;
    }
    let k = WIDEST * n / whole;
    if k == 0 {
        return 1;
    }
    k
}

// The place of the count that the one at a place is a part of: uploads, lines, or itself.
fn whole_of(place: usize) -> usize
    requires { place < places.all }
    ensures { (result ≡ whole_of place) × (result < places.all) }
{
    if place == count::CARDS {
        return place;
    }
    if place == count::OCTETS {
        return place;
    }
    if place == count::LINES {
        return place;
    }
    if place < count::PROPERTIES {
        return count::UPLOADS;
    }
    count::LINES
}

// Adds the row of the count at a place, which is n, after a bar of k marks, where it has a row.
fn put_barred(room: &mut [u8], at: usize, place: usize, n: usize, k: usize) -> usize
    requires { (place < places.all) × (k ≤ widest) }
    ensures { page result room.new ≡ added (barred place n k) (page at room.old) }
{
    if !is_shown(place, n) {
        return at;
    }
    let text = BARS;
    let from = WIDEST - k;
    let next = program_output::put_all(room, at, &text[from..from + CELL]);
    put_row(room, next, place, n)
}

// Adds the rows of a report, each after its bar.
pub fn put_bars(room: &mut [u8], values: &Counts) -> usize
    ensures { page result room.new ≡ added (bars values.now all_places) (page 0 room.old) }
{
    let mut at: usize = 0;
    for place in 0..count::ALL {
        let n = wide_number(values[place]);
        let whole = wide_number(values[whole_of(place)]);
        at = put_barred(room, at, place, n, bar_length(n, whole));
    }
    at
}
