// The reader: judges an input of cards, and writes its copy and its records.
#![tactic(auto)]

ghost use Rattle.std.specs.Prelude.{◌≡◌, List, ℕ, ◌<◌, ◌≤◌, length, MatchOption};
ghost use Rattle.numbers.specs.Limits as limit;
ghost use Rattle.line_folds.specs.Folds.{unfolded};
ghost use Rattle.line_folds.specs.Logical.{raw_lines};
ghost use Rattle.card_state.specs.State.{fresh_card};
ghost use Rattle.card_state.specs.Kept.{step_of};
ghost use Rattle.reader_walk.specs.Walk.{judge_lines};
ghost use Rattle.reader.specs.Outcome.{verdict, verdict_of, judge_in, judge_of, took, read_in};

use card_state::{Flaw, Step};
use numbers::limit;
use numbers::refusal::{Reason, Refusal};
use property_table::Edition;

// How many cards and lines an accepted input has.
#[derive(Clone, Copy, Debug, PartialEq, Eq)]
pub struct Counts {
    pub cards: usize,
    pub lines: usize,
}

// What judging an input answers.
pub type Verdict = Result<Counts, Refusal>;

// What the last line leaves, at the end of an input of n octets: 9 inside a card.
pub fn conclude(n: usize, last: Step) -> Verdict
    ensures { (store : List ℕ) → verdict result ≡ verdict_of n (step_of store last) }
{
    match last {
        Ok(c) => {
            if c.phase == card_state::BEFORE_BEGIN {
                return Ok(Counts {
                    cards: c.cards,
                    lines: c.lines,
                });
            }
            Err(Refusal(Reason::Order, n))
        }
        Err(flaw) => match flaw {
            Flaw::Placed(reason, place) => Err(Refusal(reason, place)),
            Flaw::Octet(reason, octet) => Err(Refusal(reason, octet)),
        },
    }
}

// An input of at most so many octets is judged without the scanner's table, which is then built for each value that needs it.
const SHORT: usize = 1024;

// What the lines of an input leave, with the tables made for them.
fn walk(edition: Edition, input: &[u8]) -> Step
    requires { length input.now ≤ limit.octets }
    ensures { (store : List ℕ) × (step_of store result ≡ judge_lines edition (raw_lines input.now) 0 fresh_card) }
{
    let t = octets::classes::table();
    let rows = property_table::table();
    if input.len() <= SHORT {
        return reader_walk::walk(&t, &rows, &input[..0], edition, input);
    }
    let steps = value_automaton::scanner::table();
    reader_walk::walk(&t, &rows, &steps, edition, input)
}

// The verdict on an input in an edition: a refusal, or the counts.
pub fn judge_as(edition: Edition, input: &[u8]) -> Verdict
    ensures { verdict result ≡ judge_in edition input.now }
{
    if limit::OCTETS < input.len() {
        return Err(Refusal(Reason::TooLong, limit::OCTETS));
    }
    if input.is_empty() {
        return Err(Refusal(Reason::Empty, 0));
    }
    let lone = line_breaks::first_lone(input);
    if lone < input.len() {
        return Err(Refusal(Reason::LoneCrOrLf, lone));
    }
    if !line_breaks::ends_cr_lf(input) {
        return Err(Refusal(Reason::NoEnd, input.len()));
    }
    let last = walk(edition, input);
    conclude(input.len(), last)
}

// The verdict on an input in edition one.
pub fn judge(input: &[u8]) -> Verdict
    ensures { verdict result ≡ judge_of input.now }
{
    judge_as(Edition::First, input)
}

// How many octets the copy of an input has, where a room of so many is too short for it; one as long as the input is not, and no fold is counted then.
fn copy_over(room: usize, input: &[u8]) -> Option<usize>
    requires { length input.now ≤ limit.octets }
    ensures { MatchOption result (length (unfolded input.now) ≤ room) (λ n. (room < n) × (n ≡ length (unfolded input.now))) }
{
    if input.len() <= room {
        return None;
    }
    let octets = line_unfolding::unfolded_length(input);
    (room < octets).then_some(octets)
}

// The verdict on an input in an edition, 1 to 14 or the counts; where it is accepted, its copy and its records are written to the start of their
// rooms, and on a refusal nothing is.
pub fn read(edition: Edition, input: &[u8], copy: &mut [u8], records: &mut [u32]) -> Verdict
    ensures { took (verdict result) copy.new records.new ≡ read_in edition input.now copy.old records.old }
{
    let counts = judge_as(edition, input)?;
    if let Some(octets) = copy_over(copy.len(), input) {
        return Err(Refusal(Reason::CopyRoom, octets));
    }
    let numbers = counts.lines * limit::RECORD_LENGTH;
    if records.len() < numbers {
        return Err(Refusal(Reason::RecordRoom, numbers));
    }
    let t = octets::classes::table();
    let rows = property_table::table();
    reader_records::write_lines(&t, &rows, edition, input, copy, records);
    Ok(counts)
}
