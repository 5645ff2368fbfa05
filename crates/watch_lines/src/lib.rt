// The lines that end with a chunk, each judged once: the open one, and those that lie in the chunk; their ALTID values are kept.
#![tactic(auto)]

ghost use Rattle.std.specs.Prelude.{◌≡◌, false, List, ◌++◌, ℕ, ◌+◌, ◌-◌, ◌≤◌, length, take, drop};
ghost use Rattle.numbers.specs.Limits as limit;
ghost use Rattle.octets.specs.Pick.{pick};
ghost use Rattle.line_folds.specs.Folds.{unfolded};
ghost use Rattle.property_table.specs.declared.Edition.TheVariants.{First};
ghost use Rattle.card_state.specs.State.{Counted};
ghost use Rattle.card_state.specs.Kept.{step_of, Holds};
ghost use Rattle.card_judge.specs.Judge.{Tables};
ghost use Rattle.reader_walk.specs.Walk.{settled, Roomy, Left};
ghost use Rattle.watch_arrivals.specs.Arrivals.{after_other, lone_from};
ghost use Rattle.watch_lines.specs.Taking.{judgement, joined_line, Took, Within, Went};

use card_state::{Card, Step};
use numbers::limit;
use octets::classes::ClassTable;
use property_table::Edition;
use property_table::rows::PropertyTable;

// What the ended lines of a chunk make of the card, and where the line after them starts in the chunk.
#[derive(Clone, Copy)]
pub struct Walked {
    pub step: Step,
    pub at: usize,
}

// Judges the line at hand, which starts at `at` in the input: the first, which was open, or another.
// The two calls differ in one argument, so that they are compiled to one, and that into the walk.
fn judge_either(
    t: &ClassTable,
    rows: &PropertyTable,
    steps: &[u8],
    first: bool,
    line: &[u8],
    other: &[u8],
    folded: bool,
    buffer: &mut [u8],
    at: usize,
    c: Card,
) -> Step
    requires tables { Tables t.now rows.now steps.now }
    requires counted { Counted c.cards c.lines }
    requires roomy { Roomy c (pick first line.now other.now) buffer.old }
    requires other_value { folded ≡ false → unfolded (pick first line.now other.now) ≡ pick first line.now other.now }
    ensures result_after { step_of buffer.new result ≡ judgement c buffer.old (pick first line.now other.now) at }
    ensures holds { Holds (c.used + length (pick first line.now other.now)) result × Left First c (pick first line.now other.now) buffer.old buffer.new result }
{
    if first {
        return reader_walk::judge_span(t, rows, steps, Edition::First, line, folded, buffer, at, c);
    }
    reader_walk::judge_span(t, rows, steps, Edition::First, other, folded, buffer, at, c)
}

// The judgement of the line at hand, with the place in the input of an octet that it names.
fn settle_either(step: Step, first: bool, line: &[u8], other: &[u8], at: usize) -> Step
    requires { at + length (pick first line.now other.now) ≤ limit.octets }
    ensures { (store : List ℕ) → step_of store result ≡ settled at (pick first line.now other.now) (step_of store step) }
{
    if first {
        return reader_walk::settle(step, line, at);
    }
    reader_walk::settle(step, other, at)
}

// Judges the line at hand and keeps its ALTID value in the buffer; the octets behind it are cleared up to `to`, all of them where the line is refused.
fn take_line(
    t: &ClassTable,
    rows: &PropertyTable,
    steps: &[u8],
    first: bool,
    line: &[u8],
    other: &[u8],
    folded: bool,
    buffer: &mut [u8],
    to: usize,
    at: usize,
    c: Card,
) -> Step
    requires tables { Tables t.now rows.now steps.now }
    requires counted { Counted c.cards c.lines }
    requires roomy { Roomy c (pick first line.now other.now) buffer.old × (length buffer.old ≡ limit.octets) }
    requires other_value { folded ≡ false → unfolded (pick first line.now other.now) ≡ pick first line.now other.now }
    requires other_bound { (c.used + length (pick first line.now other.now) ≤ to) × (to ≤ limit.octets) × (at + length (pick first line.now other.now) ≤ limit.octets) }
    ensures { Took c (pick first line.now other.now) buffer.old buffer.new at to result }
{
    let j = judge_either(t, rows, steps, first, line, other, folded, buffer, at, c);
    let Ok(next) = j else {
        watch_buffer::clear(buffer, 0, to);
        return settle_either(j, first, line, other, at);
    };
    watch_buffer::clear(buffer, next.used, to);
    j
}

// Judges the first line, which starts at `start` in the input, and the lines of the chunk that have ended, from `from` on. The lines are judged at
// one place, so that it is compiled into the walk.
fn judge_lines(
    t: &ClassTable,
    rows: &PropertyTable,
    steps: &[u8],
    line: &[u8],
    chunk: &[u8],
    from: usize,
    buffer: &mut [u8],
    start: usize,
    c: Card,
) -> Walked
    requires tables { Tables t.now rows.now steps.now }
    requires from_in_bounds { (from ≤ length chunk.now) × (start + (length line.now + 2 + (length chunk.now - from)) ≤ limit.octets) × (length buffer.old ≡ limit.octets) × (length chunk.now ≤ limit.octets) }
    requires within { Within c start }
    requires chunk_value { lone_from after_other (drop from chunk.now) ≡ length (drop from chunk.now) + 1 }
    ensures went { Went c line.now (drop from chunk.now) buffer.old buffer.new start result.step (drop result.at chunk.now) }
    ensures from_le_at { (from ≤ result.at) × (result.at ≤ length chunk.now) }
{
    let cr = line_folds::hops::next_cr(line, 0);
    let mut card = c;
    let mut first = true;
    let mut folded = cr != line.len();
    let mut n = line.len();
    let mut place = start;
    let mut at = from;
    let mut end = from;
    let mut next = from;
    loop {
        let to = card.used + (n + 2);
        let other = &chunk[at..end];
        let j = take_line(
            t, rows, steps, first, line, other, folded, buffer, to, place, card,
        );
        let Ok(after) = j else {
            return Walked { step: j, at: next };
        };
        let span = line_folds::spans::line_at(chunk, next);
        if chunk.len() - span.end <= 2 {
            return Walked { step: j, at: next };
        }
        card = after;
        first = false;
        folded = span.cr != span.end;
        place += n + 2;
        n = span.end - next;
        at = next;
        end = span.end;
        next = end + 2;
    }
}

// A line of at most so many octets with its CR LF is joined in as many, since the room is made at each call.
const SHORT: usize = 256;

// Joins the open line, as it stands in the buffer behind the first `used` octets, with the octets that end it.
fn join(line: &mut [u8], buffer: &[u8], used: usize, open: usize, rest: &[u8])
    requires { (used + «open» ≤ length buffer.now) × («open» + length rest.now ≤ length line.old) × (length buffer.now ≤ limit.octets) }
    ensures { take («open» + length rest.now) line.new ≡ take «open» (drop used buffer.now) ++ rest.now }
{
    octets::copying::copy_in(line, &buffer[used..used + open]);
    octets::copying::copy_in(&mut line[open..], rest);
}

// Judges the open line, joined in room for it with the octets of a chunk before `next`, and the lines of the chunk that have ended.
fn judge_joined(
    t: &ClassTable,
    rows: &PropertyTable,
    steps: &[u8],
    line: &mut [u8],
    buffer: &mut [u8],
    open: usize,
    chunk: &[u8],
    next: usize,
    start: usize,
    c: Card,
) -> Walked
    requires tables { Tables t.now rows.now steps.now }
    requires next_in_bounds { (next ≤ length chunk.now) × (start + («open» + length chunk.now) ≤ limit.octets) × (length buffer.old ≡ limit.octets) × (2 ≤ «open» + next) }
    requires within { Within c start }
    requires chunk_value { lone_from after_other (drop next chunk.now) ≡ length (drop next chunk.now) + 1 }
    requires next_in_bounds_2 { «open» + next ≤ length line.old }
    ensures went { Went c (joined_line c «open» buffer.old (take next chunk.now)) (drop next chunk.now) buffer.old buffer.new start result.step (drop result.at chunk.now) }
    ensures next_le_at { (next ≤ result.at) × (result.at ≤ length chunk.now) }
{
    join(line, buffer, c.used, open, &chunk[..next]);
    let end = open + next - 2;
    judge_lines(t, rows, steps, &line[..end], chunk, next, buffer, start, c)
}

// Judges the lines that end with a chunk: the open line, which starts at `start` in the input and ends before octet `next`, and those after it.
pub fn judge_chunk(
    t: &ClassTable,
    rows: &PropertyTable,
    steps: &[u8],
    buffer: &mut [u8],
    open: usize,
    chunk: &[u8],
    next: usize,
    start: usize,
    c: Card,
) -> Walked
    requires tables { Tables t.now rows.now steps.now }
    requires next_in_bounds { (next ≤ length chunk.now) × (start + («open» + length chunk.now) ≤ limit.octets) × (length buffer.old ≡ limit.octets) × (2 ≤ «open» + next) }
    requires within { Within c start }
    requires chunk_value { lone_from after_other (drop next chunk.now) ≡ length (drop next chunk.now) + 1 }
    ensures went { Went c (joined_line c «open» buffer.old (take next chunk.now)) (drop next chunk.now) buffer.old buffer.new start result.step (drop result.at chunk.now) }
    ensures next_le_at { (next ≤ result.at) × (result.at ≤ length chunk.now) }
{
    let n = open + next;
    if n <= SHORT {
        let mut line = [0u8; SHORT];
        return judge_joined(
            t, rows, steps, &mut line, buffer, open, chunk, next, start, c,
        );
    }
    let mut line = [0u8; limit::OCTETS];
    judge_joined(
        t, rows, steps, &mut line, buffer, open, chunk, next, start, c,
    )
}

// Judges the open line at the end of the input, without its CR LF; the buffer is only read.
pub fn judge_last(
    t: &ClassTable,
    rows: &PropertyTable,
    steps: &[u8],
    buffer: &[u8],
    open: usize,
    at: usize,
    c: Card,
) -> Step
    requires tables { Tables t.now rows.now steps.now }
    requires within { Within c at }
    requires buffer_len { (length buffer.now ≡ limit.octets) × (2 ≤ «open») × (at + «open» ≤ limit.octets) }
    ensures { (store : List ℕ) × (step_of store result ≡ settled at (take («open» - 2) (drop c.used buffer.now)) (judgement c buffer.now (take («open» - 2) (drop c.used buffer.now)) at)) }
{
    let used = c.used;
    let mut scratch = [0u8; limit::OCTETS];
    octets::copying::copy_in(&mut scratch, &buffer[..used]);
    let end = used + open - 2;
    let l = judge_lines(
        t,
        rows,
        steps,
        &buffer[used..end],
        &buffer[..0],
        0,
        &mut scratch,
        at,
        c,
    );
    l.step
}
