// The walk over the logical lines of an input, each judged in turn.
#![tactic(auto)]

ghost use Rattle.std.specs.Prelude.{◌≡◌, false, Err, List, [], ℕ, ◌+◌, ◌≤◌, length, take, drop};
ghost use Rattle.numbers.specs.Limits as limit;
ghost use Rattle.octets.specs.Pick.{pick};
ghost use Rattle.line_folds.specs.Folds.{unfolded};
ghost use Rattle.line_folds.specs.Logical.{raw_lines};
ghost use Rattle.card_state.specs.State.{Counted, fresh_card};
ghost use Rattle.card_state.specs.Kept.{card_of, step_of, Holds};
ghost use Rattle.card_judge.specs.Judge.{Tables, judge_line, part, read_by, added_by, Keeping};
ghost use Rattle.reader_walk.specs.Walk.{settled, judge_lines, behind, Roomy, Left};

mod keeping;

use card_judge::judge::Judgement;
use card_state::{Card, Flaw, Step};
use numbers::limit;
use octets::classes::ClassTable;
use property_table::Edition;
use property_table::rows::PropertyTable;

// Unfolds a line that has a fold behind the first `used` octets, and answers how many octets it wrote.
fn lay_behind(s: &[u8], folded: bool, scratch: &mut [u8], used: usize) -> usize
    requires { used + length (unfolded s.now) ≤ length scratch.old }
    ensures value { result ≡ length (pick folded (unfolded s.now) []) }
    ensures scratch_after { scratch.new ≡ behind used (pick folded (unfolded s.now) []) scratch.old }
{
    if folded {
        return keeping::unfold_behind(s, scratch, used);
    }
    0
}

// Judges the line at hand, which starts at `at` in the input: where it has a fold, it stands in the buffer behind the values that are kept.
// The two calls differ in one argument, so that they are compiled to one, and that into the walk.
fn judge_at_hand(
    t: &ClassTable,
    rows: &PropertyTable,
    steps: &[u8],
    edition: Edition,
    s: &[u8],
    folded: bool,
    buffer: &[u8],
    at: usize,
    c: Card,
) -> Judgement
    requires tables { Tables t.now rows.now steps.now }
    requires counted { Counted c.cards c.lines }
    requires roomy { Roomy c [] buffer.now × (c.used + length s.now ≤ limit.octets) }
    ensures s_value { read_by result (take c.used buffer.now) (pick folded (drop c.used buffer.now) s.now) ≡ judge_line edition (card_of c (take c.used buffer.now)) at (pick folded (drop c.used buffer.now) s.now) }
    ensures keeping { Keeping c (pick folded (drop c.used buffer.now) s.now) (added_by edition c.seen (pick folded (drop c.used buffer.now) s.now)) result }
{
    let used = c.used;
    let store = &buffer[..used];
    if folded {
        return card_judge::judge::judge_line(
            t,
            rows,
            steps,
            edition,
            &buffer[used..],
            store,
            at,
            c,
        );
    }
    card_judge::judge::judge_line(t, rows, steps, edition, s, store, at, c)
}

// Copies the octets from `from` up to `to` of the line at hand behind the first `used` octets.
fn keep_part(s: &[u8], folded: bool, scratch: &mut [u8], used: usize, from: usize, to: usize)
    requires from_le_to { (from ≤ to) × (used + to ≤ length scratch.old) }
    requires to_in_bounds { folded ≡ false → to ≤ length s.now }
    ensures { scratch.new ≡ behind used (part from to (pick folded (drop used scratch.old) s.now)) scratch.old }
{
    if folded {
        keeping::move_down(scratch, used, used + from, to - from);
        return;
    }
    keeping::keep(scratch, used, &s[from..to]);
}

// Judges the logical line s, which starts at `at` in the input: as it is where it has no fold, else unfolded; and keeps what is to be kept of it.
// It is lent the scanner's table, or no octets.
pub fn judge_span(
    t: &ClassTable,
    rows: &PropertyTable,
    steps: &[u8],
    edition: Edition,
    s: &[u8],
    folded: bool,
    scratch: &mut [u8],
    at: usize,
    c: Card,
) -> Step
    requires tables { Tables t.now rows.now steps.now }
    requires counted { Counted c.cards c.lines }
    requires roomy { Roomy c s.now scratch.old }
    requires s_value { folded ≡ false → unfolded s.now ≡ s.now }
    ensures result_after { step_of scratch.new result ≡ judge_line edition (card_of c scratch.old) at (unfolded s.now) }
    ensures holds { Holds (c.used + length s.now) result × Left edition c s.now scratch.old scratch.new result }
{
    let used = c.used;
    let n = lay_behind(s, folded, scratch, used);
    let end = used + n;
    let j = judge_at_hand(t, rows, steps, edition, s, folded, &scratch[..end], at, c);
    let from = j.from;
    let to = j.to;
    keep_part(s, folded, scratch, used, from, to);
    j.step
}

// Why the line s is refused, which starts at `at` in the input, with the place in the input of an octet that is named.
fn placed(flaw: Flaw, s: &[u8], at: usize) -> Flaw
    requires { at + length s.now ≤ limit.octets }
    ensures { (store : List ℕ) → step_of store (Err result) ≡ settled at s.now (step_of store (Err flaw)) }
{
    match flaw {
        Flaw::Placed(..) => flaw,
        Flaw::Octet(reason, octet) => {
            let place = line_folds::places::place_of(s, octet);
            Flaw::Placed(reason, at + place)
        }
    }
}

// The judgement of the line s, which starts at `at` in the input, with the place in the input of an octet that it names.
pub fn settle(step: Step, s: &[u8], at: usize) -> Step
    requires { at + length s.now ≤ limit.octets }
    ensures { (store : List ℕ) → step_of store result ≡ settled at s.now (step_of store step) }
{
    match step {
        Ok(_) => step,
        Err(flaw) => Err(placed(flaw, s, at)),
    }
}

// An input of at most so many octets is judged with a scratch of as many, since the scratch is made at each call.
const SHORT: usize = 1024;

// So is one of at most so many, which is a small card.
const SHORTEST: usize = 256;

// Judges the lines one after the other, up to the first refusal, with a scratch that holds them all.
fn walk_in(
    t: &ClassTable,
    rows: &PropertyTable,
    steps: &[u8],
    edition: Edition,
    s: &[u8],
    scratch: &mut [u8],
) -> Step
    requires tables { Tables t.now rows.now steps.now }
    requires s_len_bound { length s.now ≤ limit.octets }
    requires s_in_bounds { (length s.now ≤ length scratch.old) × (length scratch.old ≤ limit.octets) }
    ensures { (store : List ℕ) × (step_of store result ≡ judge_lines edition (raw_lines s.now) 0 fresh_card) }
{
    let mut c = card_state::fresh();
    let mut at: usize = 0;
    while at < s.len() {
        let span = line_folds::spans::line_at(s, at);
        let end = span.end;
        let folded = span.cr != end;
        let j = judge_span(t, rows, steps, edition, &s[at..end], folded, scratch, at, c);
        let Ok(next) = j else {
            return settle(j, &s[at..end], at);
        };
        c = next;
        at = end + 2;
    }
    Ok(c)
}

// Judges the lines one after the other, up to the first refusal.
pub fn walk(t: &ClassTable, rows: &PropertyTable, steps: &[u8], edition: Edition, s: &[u8]) -> Step
    requires tables { Tables t.now rows.now steps.now }
    requires s_len_bound { length s.now ≤ limit.octets }
    ensures { (store : List ℕ) × (step_of store result ≡ judge_lines edition (raw_lines s.now) 0 fresh_card) }
{
    if s.len() <= SHORTEST {
        let mut scratch = [0u8; SHORTEST];
        return walk_in(t, rows, steps, edition, s, &mut scratch);
    }
    if s.len() <= SHORT {
        let mut scratch = [0u8; SHORT];
        return walk_in(t, rows, steps, edition, s, &mut scratch);
    }
    let mut scratch = [0u8; limit::OCTETS];
    walk_in(t, rows, steps, edition, s, &mut scratch)
}
