// What one judgement adds to each count of a report.
#![tactic(auto)]

ghost use Rattle.std.specs.Prelude.{◌≡◌, map, ◌<◌, ◌≤◌};
ghost use Rattle.numbers.specs.Counts as places;
ghost use Rattle.report_weights.specs.Counts.{refusal_at, count_at, counts as all_counts};
ghost use Rattle.report_weights.specs.Parts.{refused_part, accepted_part, weights};

use numbers::refusal::{Reason, Refusal};
use numbers::{count, refusal};
use reader::Counts;
use report_lines::LineCounts;
use std::array::from_fn;

// What a judgement adds to each count, by its place.
pub type Weights = [usize; count::ALL];

// How many refusals a judgement may give.
const REFUSALS: usize = count::PROPERTIES - count::REFUSALS;

// The refusals of a judgement, by number.
const NUMBERS: [u32; REFUSALS] = [
    refusal::TOO_LONG,
    refusal::EMPTY,
    refusal::LONE_CR_OR_LF,
    refusal::NO_END,
    refusal::BAD_OCTET,
    refusal::VALUE,
    refusal::LADEN,
    refusal::ORDER,
    refusal::SECOND,
    refusal::NO_FN,
    refusal::MEMBER,
    refusal::NAME,
    refusal::PARAMETER,
    refusal::QUOTE,
    refusal::NO_COLON,
];

// The refusal that is counted at a place.
pub fn refusal_at(place: usize) -> u32
    requires { (places.refusals ≤ place) × (place < places.properties) }
    ensures { result ≡ refusal_at place }
{
    let numbers = NUMBERS;
    numbers[place - count::REFUSALS]
}

// What an upload that is refused with n adds at a place.
fn refused_part(n: u32, place: usize) -> usize
    requires { place < places.all }
    ensures { result ≡ refused_part n (count_at place) }
{
    if place == count::UPLOADS {
        return 1;
    }
    if place < count::REFUSALS {
        return 0;
    }
    if count::PROPERTIES <= place {
        return 0;
    }
    if refusal_at(place) == n {
        return 1;
    }
    0
}

// What an accepted upload with these cards, lines and octets, and these lines of each property, adds at a place.
fn accepted_part(counts: Counts, octets: usize, rows: &LineCounts, place: usize) -> usize
    requires { place < places.all }
    ensures { result ≡ accepted_part counts.cards counts.lines octets rows.now (count_at place) }
{
    if count::PROPERTIES <= place {
        return rows[place - count::PROPERTIES];
    }
    if count::REFUSALS <= place {
        return 0;
    }
    if place == count::CARDS {
        return counts.cards;
    }
    if place == count::LINES {
        return counts.lines;
    }
    if place == count::OCTETS {
        return octets;
    }
    1
}

// What a refused upload adds to each count.
fn weigh_refused(n: u32) -> Weights
    ensures { result ≡ map (refused_part n) all_counts }
{
    from_fn(|place| refused_part(n, place))
}

// What an accepted upload adds to each count.
fn weigh_accepted(counts: Counts, octets: usize, rows: &LineCounts) -> Weights
    ensures { result ≡ map (accepted_part counts.cards counts.lines octets rows.now) all_counts }
{
    from_fn(|place| accepted_part(counts, octets, rows, place))
}

// Judges an input and answers what this adds to each count.
pub fn weigh(input: &[u8]) -> Weights
    ensures { result ≡ weights input.now }
{
    match reader::judge(input) {
        Err(Refusal(reason, _)) => weigh_refused(reason.number()),
        Ok(counts) => {
            let t = octets::classes::table();
            let rows = property_table::table();
            let by_row = report_lines::count_lines(&t, &rows, input);
            weigh_accepted(counts, input.len(), &by_row)
        }
    }
}
