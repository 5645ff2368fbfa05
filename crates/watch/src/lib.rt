// The reader that takes an input in chunks, cut anywhere: its state, and one lent buffer of 16,384 octets.
#![tactic(auto)]

ghost use Rattle.std.specs.Prelude.{◌≡◌, true, List, ◌++◌, ℕ, ◌+◌, ◌-◌, ◌<◌, ◌≤◌, ltb, length, take, drop};
ghost use Rattle.numbers.specs.Limits as limit;
ghost use Rattle.numbers.specs.declared.refusal.Reason.TheVariants.{TooLong};
ghost use Rattle.card_state.specs.Kept.{places_of, end_of, Inside, step_of};
ghost use Rattle.desk_pool.specs.Pools.{patch};
ghost use Rattle.value_automaton.specs.States.{Scanner};
ghost use Rattle.reader_walk.specs.Walk.{settled};
ghost use Rattle.reader.specs.Outcome.{judge_of, verdict};
ghost use Rattle.watch_arrivals.specs.Arrivals.{after_other, tail_from, lone_from, next_from};
ghost use Rattle.watch_lines.specs.Taking.{Within, judgement};
ghost use Rattle.watch.specs.Octets.{buffer_after};
ghost use Rattle.watch.specs.State.{is_over, quiet_state, open_state, stopped_state, fresh_watch, claims, Counts, Sound, Live, Stands, After, Reached, no_reason};
ghost use Rattle.watch.specs.Outcome.{Comes, lines_came, octets_came, chunk_came, end_came, ChunkOf, EndOf};

use card_state::tags::Tags;
use card_state::{Card, Flaw, Step};
use numbers::limit;
use numbers::refusal::{Reason, Refusal};
use reader::Verdict;
use watch_arrivals::{AFTER_CR, AFTER_CR_LF, AFTER_OTHER};

// What is known so far: no fault, the fault of an ended line, a lone CR or LF, or an input that is too long. A number, as `tail` is one, since a
// caller may hand in a Watch with any numbers: `ChunkOf` and `EndOf` say what is answered then, and an enum would ask more of callers.
pub const NO_FAULT: u32 = 0;

pub const LINE_FAULT: u32 = 1;

pub const LONE_BREAK: u32 = 2;

pub const TOO_LONG: u32 = 3;

// What is kept between two chunks, beside the buffer.
#[derive(Clone, Copy)]
pub struct Watch {
    // Which fault is known: NO_FAULT, LINE_FAULT, LONE_BREAK or TOO_LONG; and its reason and place, which count only where one is known.
    pub known: u32,
    pub fault: Reason,
    pub place: usize,
    // Where the line that has not ended starts in the input, and its octets so far; all octets once a fault is known.
    pub start: usize,
    pub open: usize,
    // How the input ends so far: AFTER_OTHER, AFTER_CR or AFTER_CR_LF.
    pub tail: u32,
    // The card after the lines that have ended; its ALTID values stand at the front of the buffer, and the open line behind them.
    pub card: Card,
}

// The next state, or a refusal's number and place; a refused call leaves the state and the buffer as they were.
#[derive(Clone, Copy)]
pub enum Arrived {
    Next(Watch),
    Refused(u32, usize),
}

// The reason of a state with no fault known, whose number 0 no refusal has.
fn no_reason() -> Reason
    ensures { result ≡ no_reason }
{
    Reason::of(0)
}

// The state once a fault is known, after n octets.
fn faulty(known: u32, fault: Reason, place: usize, n: usize, tail: u32) -> Watch
    ensures { result ≡ quiet_state known fault place n tail }
{
    let card = card_state::fresh();
    Watch {
        known,
        fault,
        place,
        start: n,
        open: 0,
        tail,
        card,
    }
}

// The state once the input is too long.
fn too_long() -> Watch
    ensures { result ≡ quiet_state is_over TooLong limit.octets limit.octets after_other }
{
    faulty(
        TOO_LONG,
        Reason::TooLong,
        limit::OCTETS,
        limit::OCTETS,
        AFTER_OTHER,
    )
}

// The state after a line that was refused, after n octets.
fn stopped(step: Step, n: usize, tail: u32) -> Watch
    ensures { result ≡ stopped_state step n tail }
{
    match step {
        Ok(_) => faulty(NO_FAULT, no_reason(), 0, n, tail),
        Err(Flaw::Placed(reason, place)) => faulty(LINE_FAULT, reason, place, n, tail),
        Err(Flaw::Octet(reason, octet)) => faulty(LINE_FAULT, reason, octet, n, tail),
    }
}

// More than the octets of any input: a place of the card is one more than a value's start times SPAN and its length.
const SPAN: usize = 32768;

// Where the value of a place ends; 0 for no value.
fn end_of(place: u32) -> usize
    ensures { result ≡ end_of place }
{
    let p = place as usize;
    if p == 0 {
        return 0;
    }
    (p - 1) / SPAN + (p - 1) % SPAN
}

// Where the last of a card's values ends.
fn far_end(t: Tags) -> usize
    ensures { ((n : ℕ) → result ≤ n → Inside n (places_of t)) × ((n : ℕ) → Inside n (places_of t) → result ≤ n) }
{
    let places = [
        t.kind,
        t.n,
        t.bday,
        t.anniversary,
        t.gender,
        t.prodid,
        t.rev,
        t.uid,
        t.created,
        t.language,
    ];
    let mut far: usize = 0;
    for &place in &places {
        far = far.max(end_of(place));
    }
    far
}

// Whether the card of a state can be worked with: its values lie in its part of the buffer, and its counts within the octets before `start`.
fn is_card_sound(c: Card, start: usize) -> bool
    ensures { (result ≡ true → Within c start) × (Within c start → result ≡ true) }
{
    let tags = c.tags;
    if c.used < far_end(tags) {
        return false;
    }
    if start < c.used {
        return false;
    }
    if c.lines < c.cards {
        return false;
    }
    c.lines <= start
}

// Whether the octets that a state has, its count and its tail can be worked with.
fn is_count_sound(w: Watch) -> bool
    ensures { (result ≡ true → Counts w) × (Counts w → result ≡ true) }
{
    if limit::OCTETS < w.open {
        return false;
    }
    if limit::OCTETS - w.open < w.start {
        return false;
    }
    if w.start + w.open < w.tail as usize {
        return false;
    }
    if w.known == LINE_FAULT {
        return true;
    }
    w.tail as usize <= w.open
}

// Whether the state can be worked with. Each state that was handed on can.
fn is_sound(w: Watch) -> bool
    ensures { (result ≡ true → Sound w) × (Sound w → result ≡ true) }
{
    let counts = is_count_sound(w);
    if !counts {
        return false;
    }
    let c = w.card;
    is_card_sound(c, w.start)
}

// Whether the state claims over 16,384 octets of the buffer: those of ALTID values and of the open line.
fn is_over(w: Watch) -> bool
    ensures { result ≡ ltb limit.octets (claims w) }
{
    let used = w.card.used;
    if limit::OCTETS < used {
        return true;
    }
    limit::OCTETS - used < w.open
}

// A chunk with which no line ends: it is kept behind the open line.
fn go_on(w: Watch, buffer: &mut [u8], chunk: &[u8], tail: u32) -> Watch
    requires { (claims w + length chunk.now ≤ limit.octets) × (length buffer.old ≡ limit.octets) }
    ensures value { result ≡ open_state w.start (w.«open» + length chunk.now) tail w.card }
    ensures buffer_after { buffer.new ≡ patch buffer.old (claims w) chunk.now }
{
    let card = w.card;
    let used = card.used;
    watch_buffer::append(buffer, used + w.open, chunk);
    Watch {
        known: NO_FAULT,
        fault: no_reason(),
        place: 0,
        start: w.start,
        open: w.open + chunk.len(),
        tail,
        card,
    }
}

// A chunk with which lines end, the first before octet `next`: they are judged, and the rest is kept.
// It is lent the scanner's table, or no octets.
fn take_lines_with(
    steps: &[u8],
    w: Watch,
    buffer: &mut [u8],
    chunk: &[u8],
    next: usize,
    tail: u32,
) -> Watch
    requires scanner { Scanner steps.now }
    requires sound { Sound w × (length buffer.old ≡ limit.octets) }
    requires tail_bound { (w.tail ≤ w.«open») × (w.start + w.«open» + length chunk.now ≤ limit.octets) }
    requires next_value { (next ≡ next_from w.tail chunk.now) × (next < length chunk.now) }
    requires chunk_value { lone_from w.tail chunk.now ≡ length chunk.now + 1 }
    ensures by_index { (i : List ℕ) → Live w buffer.old i → buffer.old ≡ buffer_after i → tail ≡ tail_from w.tail chunk.now → After result buffer.new (i ++ chunk.now) }
    ensures comes { tail ≡ tail_from w.tail chunk.now → Comes result buffer.new (lines_came w buffer.old chunk.now next) }
{
    let c = w.card;
    let base = w.start + w.open;
    let n = base + chunk.len();
    let t = octets::classes::table();
    let rows = property_table::table();
    let l = watch_lines::judge_chunk(&t, &rows, steps, buffer, w.open, chunk, next, w.start, c);
    let at = l.at;
    let last = l.step;
    let Ok(card) = last else {
        return stopped(last, n, tail);
    };
    watch_buffer::append(buffer, card.used, &chunk[at..]);
    Watch {
        known: NO_FAULT,
        fault: no_reason(),
        place: 0,
        start: base + at,
        open: chunk.len() - at,
        tail,
        card,
    }
}

// A chunk, or a last line, of at most so many octets is judged without the scanner's table, which is then built for each value that needs it.
const SHORT: usize = 192;

// A chunk with which lines end, with the scanner's table where it is long.
fn take_lines(w: Watch, buffer: &mut [u8], chunk: &[u8], next: usize, tail: u32) -> Watch
    requires sound { Sound w × (length buffer.old ≡ limit.octets) }
    requires tail_bound { (w.tail ≤ w.«open») × (w.start + w.«open» + length chunk.now ≤ limit.octets) }
    requires next_value { (next ≡ next_from w.tail chunk.now) × (next < length chunk.now) }
    requires chunk_value { lone_from w.tail chunk.now ≡ length chunk.now + 1 }
    ensures by_index { (i : List ℕ) → Live w buffer.old i → buffer.old ≡ buffer_after i → tail ≡ tail_from w.tail chunk.now → After result buffer.new (i ++ chunk.now) }
    ensures comes { tail ≡ tail_from w.tail chunk.now → Comes result buffer.new (lines_came w buffer.old chunk.now next) }
{
    if chunk.len() <= SHORT {
        return take_lines_with(&chunk[..0], w, buffer, chunk, next, tail);
    }
    let steps = value_automaton::scanner::table();
    take_lines_with(&steps, w, buffer, chunk, next, tail)
}

// The octets of a chunk with which no fault of 1 or 3 is known, with no fault before.
fn take_octets(w: Watch, buffer: &mut [u8], chunk: &[u8]) -> Watch
    requires sound { Sound w × (length buffer.old ≡ limit.octets) }
    requires tail_bound { (w.tail ≤ w.«open») × (w.start + w.«open» + length chunk.now ≤ limit.octets) }
    requires chunk_value { lone_from w.tail chunk.now ≡ length chunk.now + 1 }
    ensures by_index { (i : List ℕ) → Live w buffer.old i → buffer.old ≡ buffer_after i → After result buffer.new (i ++ chunk.now) }
    ensures comes { Comes result buffer.new (octets_came w buffer.old chunk.now) }
{
    let tail = watch_arrivals::tail_after(w.tail, chunk);
    let next = watch_arrivals::next_line(w.tail, chunk);
    if next < chunk.len() {
        return take_lines(w, buffer, chunk, next, tail);
    }
    go_on(w, buffer, chunk, tail)
}

// The next state after a chunk, and the buffer with it.
fn arrive(w: Watch, buffer: &mut [u8], chunk: &[u8]) -> Watch
    requires { Sound w × (length buffer.old ≡ limit.octets) }
    ensures by_index { (i : List ℕ) → Stands w buffer.old i → buffer.old ≡ buffer_after i → After result buffer.new (i ++ chunk.now) }
    ensures comes { Comes result buffer.new (chunk_came w buffer.old chunk.now) }
{
    if w.known == TOO_LONG {
        return w;
    }
    let before = w.start + w.open;
    let claimed = w.card.used + w.open;
    if limit::OCTETS - before < chunk.len() {
        watch_buffer::clear(buffer, 0, claimed);
        return too_long();
    }
    let n = before + chunk.len();
    if w.known == LONE_BREAK {
        return faulty(LONE_BREAK, Reason::LoneCrOrLf, w.place, n, AFTER_OTHER);
    }
    let lone = watch_arrivals::first_break(w.tail, chunk);
    if lone <= chunk.len() {
        watch_buffer::clear(buffer, 0, claimed);
        return faulty(
            LONE_BREAK,
            Reason::LoneCrOrLf,
            before + lone - 1,
            n,
            AFTER_OTHER,
        );
    }
    if w.known == LINE_FAULT {
        let tail = watch_arrivals::tail_after(w.tail, chunk);
        return faulty(LINE_FAULT, w.fault, w.place, n, tail);
    }
    take_octets(w, buffer, chunk)
}

// What the open line leaves at the end of the input, with the tables made for it.
fn last_line(w: Watch, buffer: &[u8]) -> Step
    requires { Sound w × (length buffer.now ≡ limit.octets) × (2 ≤ w.«open») }
    ensures { (store : List ℕ) × (step_of store result ≡ settled w.start (take (w.«open» - 2) (drop w.card.used buffer.now)) (judgement w.card buffer.now (take (w.«open» - 2) (drop w.card.used buffer.now)) w.start)) }
{
    let c = w.card;
    let t = octets::classes::table();
    let rows = property_table::table();
    if w.open <= SHORT {
        return watch_lines::judge_last(&t, &rows, &buffer[..0], buffer, w.open, w.start, c);
    }
    let steps = value_automaton::scanner::table();
    watch_lines::judge_last(&t, &rows, &steps, buffer, w.open, w.start, c)
}

// The verdict on the octets so far, of a state that can be worked with.
fn conclude(w: Watch, buffer: &[u8]) -> Verdict
    requires { Sound w × (length buffer.now ≡ limit.octets) }
    ensures by_index { (i : List ℕ) → Reached w buffer.now i → verdict result ≡ judge_of i }
    ensures value { verdict result ≡ end_came w buffer.now }
{
    let n = w.start + w.open;
    if w.known == TOO_LONG {
        return Err(Refusal(Reason::TooLong, limit::OCTETS));
    }
    if n == 0 {
        return Err(Refusal(Reason::Empty, 0));
    }
    if w.known == LONE_BREAK {
        return Err(Refusal(Reason::LoneCrOrLf, w.place));
    }
    if w.tail == AFTER_CR {
        return Err(Refusal(Reason::LoneCrOrLf, n - 1));
    }
    if w.tail != AFTER_CR_LF {
        return Err(Refusal(Reason::NoEnd, n));
    }
    if w.known == LINE_FAULT {
        return Err(Refusal(w.fault, w.place));
    }
    let last = last_line(w, buffer);
    reader::conclude(n, last)
}

impl Watch {
    // A fresh state, before the first chunk.
    pub fn new() -> Watch
        ensures { result ≡ fresh_watch }
    {
        faulty(NO_FAULT, no_reason(), 0, 0, AFTER_OTHER)
    }

    // Takes a chunk: the next state, or 45, then 46.
    pub fn chunk(self, buffer: &mut [u8], chunk: &[u8]) -> Arrived
        ensures { ChunkOf self buffer.old chunk.now result buffer.new }
    {
        if buffer.len() != limit::OCTETS {
            return Arrived::Refused(Reason::BufferLength.number(), 0);
        }
        let over = is_over(self);
        if over {
            return Arrived::Refused(Reason::Claim.number(), 0);
        }
        let sound = is_sound(self);
        if !sound {
            return Arrived::Next(self);
        }
        if self.start + self.open == 0 {
            watch_buffer::clear(buffer, 0, limit::OCTETS);
            return Arrived::Next(arrive(self, buffer, chunk));
        }
        Arrived::Next(arrive(self, buffer, chunk))
    }

    // The verdict on the octets so far, as `judge` has it for them; 45, then 46, before all else. The buffer is only read.
    pub fn end(self, buffer: &[u8]) -> Verdict
        ensures { EndOf self buffer.now (verdict result) }
    {
        if buffer.len() != limit::OCTETS {
            return Err(Refusal(Reason::BufferLength, 0));
        }
        let over = is_over(self);
        if over {
            return Err(Refusal(Reason::Claim, 0));
        }
        let sound = is_sound(self);
        if !sound {
            return Err(Refusal(Reason::Order, 0));
        }
        conclude(self, buffer)
    }
}
