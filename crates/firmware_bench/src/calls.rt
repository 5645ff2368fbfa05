// Calls of one kind to a desk, one after the other, in turn over its tickets.
ghost use Rattle.std.specs.Prelude.{◌≡◌};
ghost use Rattle.desk.specs.Answer.{answer};
ghost use Rattle.desk.specs.Steps.{turned};
ghost use Rattle.reader.specs.Outcome.{verdict};
ghost use Rattle.firmware_bench.specs.Calls.{next_ticket, verdict_answer, call_step, run};

use desk::{Desk, Turn};
use numbers::refusal::Refusal;
use reader::Verdict;

// The kinds of calls, as C numbers them; any other number judges.
pub const OPEN: u32 = 0;

pub const ADD: u32 = 1;

const RELEASE: u32 = 2;

const HELD: u32 = 3;

// Takes the ticket after t, and 1 after the last.
fn next_ticket(t: u32, last: u32) -> u32
    ensures { result ≡ next_ticket t last }
{
    if t < last { t + 1 } else { 1 }
}

// Turns a verdict into an answer as the desk's others are: the count of cards, or the refusal.
fn verdict_answer(v: Verdict) -> Result<usize, Refusal>
    ensures { answer result ≡ verdict_answer (verdict v) }
{
    v.map(|counts| counts.cards)
}

// Makes one call of a kind, at tick 0.
fn call(d: Desk, pool: &mut [u8], chunk: &[u8], kind: u32, t: u32) -> Turn
    ensures { turned result pool.new ≡ call_step d pool.old chunk.now kind t }
{
    match kind {
        OPEN => d.open(pool, t, 0),
        ADD => d.add(pool, t, chunk, 0),
        RELEASE => d.release(pool, t),
        HELD => Turn {
            answer: d.held(pool, t),
            desk: d,
        },
        _ => Turn {
            answer: verdict_answer(d.judge(pool, t)),
            desk: d,
        },
    }
}

// Makes n calls of a kind, in turn over the tickets 1 to last, and answers the last turn.
pub fn run(first: Turn, pool: &mut [u8], chunk: &[u8], kind: u32, last: u32, n: usize) -> Turn
    ensures { turned result pool.new ≡ run chunk.now kind last 1 n (turned first pool.old) }
{
    let mut turn = first;
    let mut t: u32 = 1;
    for _ in 0..n {
        turn = call(turn.desk, pool, chunk, kind, t);
        t = next_ticket(t, last);
    }
    turn
}
