// The answers in a log.
#![tactic(auto)]

pub mod reply;

ghost use Rattle.std.specs.Prelude.{◌∷◌, ◌++◌, ◌≡◌, ◌+◌, ◌*◌, ◌≤◌, leb, length};
ghost use Rattle.numbers.specs.Refusals.{number};
ghost use Rattle.reader.specs.Outcome.{verdict as read};
ghost use Rattle.desk.specs.Answer.{answer};
ghost use Rattle.desk_ledger.specs.Ledger.{part, refused, verdict};
ghost use Rattle.desk_ledger.specs.Desks.{said};
ghost use Rattle.replay_script.specs.Numerals.{four_octets};
ghost use Rattle.replay_log.specs.Logs.{entry, Put, answer_room, shown_more};

use numbers::refusal::Refusal;
use reader::Verdict;
use replay_script::numerals;

// Writes an answer's name and a number to the start of d, and answers how many octets these are.
fn put_one(d: &mut [u8], name: u8, n: usize) -> usize
    requires { 5 ≤ length d.old }
    ensures { Put (name ∷ four_octets n) d.old d.new result }
{
    d[0] = name;
    numerals::put_four(d, 1, n);
    5
}

// Writes an answer's name and two numbers to the start of d, and answers how many octets these are.
fn put_two(d: &mut [u8], name: u8, n: usize, m: usize) -> usize
    requires { 9 ≤ length d.old }
    ensures { Put (name ∷ four_octets n ++ four_octets m) d.old d.new result }
{
    d[0] = name;
    numerals::put_four(d, 1, n);
    numerals::put_four(d, 5, m);
    9
}

// Writes a part with its length, and answers how many octets these are.
pub fn put_part(d: &mut [u8], octets: &[u8]) -> usize
    requires { length (entry (part octets.now)) ≤ length d.old }
    ensures { Put (entry (part octets.now)) d.old d.new result }
{
    let n = put_one(d, reply::PART, octets.len());
    octets::copying::copy_in(&mut d[n..], octets);
    n + octets.len()
}

// Writes a refusal's number and place, and answers how many octets these are.
#[tactic(auto, using(crate::proofs::LogLaws::refused_length), unfolding(crate::specs::Logs::entry))]
fn put_refusal(d: &mut [u8], r: Refusal) -> usize
    requires { length (entry (refused (number r.0) r.1)) ≤ length d.old }
    ensures { Put (entry (refused (number r.0) r.1)) d.old d.new result }
{
    let Refusal(reason, place) = r;
    put_two(d, reply::REFUSED, reason.number() as usize, place)
}

// Writes an answer of the desk, and answers how many octets it has there.
#[tactic(auto, using(crate::proofs::LogLaws::told_length), unfolding(crate::specs::Logs::entry))]
pub fn put_answer(d: &mut [u8], a: Result<usize, Refusal>) -> usize
    requires { length (entry (said (answer a))) ≤ length d.old }
    ensures { Put (entry (said (answer a))) d.old d.new result }
{
    match a {
        Ok(n) => put_one(d, reply::TOLD, n),
        Err(r) => put_refusal(d, r),
    }
}

// Writes an answer of the reader, and answers how many octets it has there.
#[tactic(auto, using(crate::proofs::LogLaws::counts_length), unfolding(crate::specs::Logs::entry))]
pub fn put_verdict(d: &mut [u8], v: Verdict) -> usize
    requires { length (entry (verdict (read v))) ≤ length d.old }
    ensures { Put (entry (verdict (read v))) d.old d.new result }
{
    match v {
        Ok(counts) => put_two(d, reply::COUNTS, counts.cards, counts.lines),
        Err(refusal) => put_refusal(d, refusal),
    }
}

// The most octets of an answer that shows nothing.
const ANSWER_ROOM: usize = 9;

// How many octets more the answer to a show may have: a name and a length with a full slot.
const SHOWN_MORE: usize = 16380;

// Tells whether a log has room for the answers to so many calls, of which so many are shows.
pub fn has_room(calls: usize, shows: usize, room: usize) -> bool
    ensures { result ≡ leb (answer_room * calls + shown_more * shows) room }
{
    if room / SHOWN_MORE < shows {
        return false;
    }
    let left = room - SHOWN_MORE * shows;
    calls <= left / ANSWER_ROOM
}
