// The judgement of one logical line within its card: refusals 5 to 12 in the order of REFERENCE, The order of refusals.
ghost use Rattle.std.specs.Prelude.{◌≡◌, true, List, ℕ, ◌+◌, ◌-◌, ◌≤◌, ◌<◌, eqb, length};
ghost use Rattle.std.proofs.Math.Option.{none};
ghost use Rattle.numbers.specs.Limits as limit;
ghost use Rattle.numbers.specs.Properties as property;
ghost use Rattle.numbers.specs.Kinds as kinds;
ghost use Rattle.octets.specs.Pick.{pick};
ghost use Rattle.octets.specs.Classes.{Classes};
ghost use Rattle.property_table.specs.Rows.{once_at, is_group};
ghost use Rattle.line_parameters.specs.First.{first};
ghost use Rattle.card_line.specs.Parts.{altid_name, first_value};
ghost use Rattle.card_state.specs.State.{Next, Counted, singles, in_order, flag_of, once_flag, is_seen, closed};
ghost use Rattle.card_state.specs.Kept.{Lies, card_of, step_of, Holds, gone_on};
ghost use Rattle.card_judge.specs.Judge.{Tables, Parted, laden, entered, judge_parts, judge_line, read_by, Stored, added_at, added_by, KeepsOn, Keeping, Spans, instance, Told, Takes};

use card_line::Parts;
use card_state::{Card, Flaw, Step};
use line_parameters::Span;
use numbers::property;
use numbers::refusal::Reason;
use octets::classes::ClassTable;
use property_table::Edition;
use property_table::rows::PropertyTable;
use value_kinds::Fault;

// What a line makes of its card, and which octets of the line are to be kept behind those in the store, from `from` to `to`.
#[derive(Clone, Copy, Debug, PartialEq, Eq)]
pub struct Judgement {
    pub step: Step,
    pub from: usize,
    pub to: usize,
}

// Whether a line of the row may stand here.
#[tactic(auto, unfolding(card_state::specs::State::in_order))]
fn in_order(phase: u32, row: usize) -> bool
    ensures { result ≡ in_order phase row }
{
    match phase {
        card_state::BEFORE_BEGIN => row == property::BEGIN,
        card_state::BEFORE_VERSION => row == property::VERSION,
        _ => row != property::BEGIN && row != property::VERSION,
    }
}

// Whether a framing line has a group or a parameter.
#[tactic(auto, unfolding(crate::specs::Judge::laden))]
fn is_laden(x: Parts) -> bool
    ensures { result ≡ laden x.row x.group_length x.param_count }
{
    property_table::is_framing(x.row) && (x.group_length != 0 || x.param_count != 0)
}

// Where the ALTID value of a line stands; of a line whose property may stand any number of times it is not looked for.
fn altid_at(t: &ClassTable, s: &[u8], x: Parts, once: usize) -> Option<Span>
    requires classes { Classes t.now }
    requires parted { Parted x s.now }
    ensures { Spans (first result) s.now (pick (eqb once 0) none (first_value altid_name s.now)) }
{
    if once == 0 {
        return None;
    }
    if x.param_count == 0 {
        return None;
    }
    let name_end = x.name_end;
    line_parameters::param_first(t, s, name_end, b"ALTID")
}

// A judgement by which no octets of the line are to be kept.
fn unkept(step: Step) -> Judgement
    ensures { result ≡ record { step = step; from = 0; to = 0 } }
{
    Judgement {
        step,
        from: 0,
        to: 0,
    }
}

// A line that fits: the end of a card, or one more line of it.
fn enter(c: Card, at: usize, row: usize, once: usize, value: &[u8]) -> Step
    requires counted { Counted c.cards c.lines }
    requires once_value { (once ≡ once_at row) × (once ≤ limit.flags) }
    requires lies { Lies c }
    ensures by_index { (store : List ℕ) → step_of store result ≡ pick (eqb row property.end) (closed (card_of c store) at) (Next (card_of (gone_on c row (is_group value.now)) store)) }
    ensures holds { Holds c.used result × KeepsOn c.used result }
{
    if row == property::END {
        return card_state::close(c, at);
    }
    let group = property_table::is_group(value);
    Ok(card_state::note(c, row, once, group))
}

// What the ALTID of a line makes of its property's instance.
#[derive(Clone, Copy)]
enum Instance {
    // It starts a second one.
    Second,
    // It is the first line, with an ALTID from `from` to `to` that is to be kept.
    Opened { from: usize, to: usize },
    // It is one more line of the same, or has no ALTID to be kept.
    Further,
}

// What a line of the k-th property that a card has at most once, or of any other (0), is by the ALTID that was found in it.
fn instance_of(s: &[u8], f: Option<Span>, k: usize, again: bool, store: &[u8], c: Card) -> Instance
    requires spans { Spans (first f) s.now (pick (eqb k 0) none (first_value altid_name s.now)) }
    requires k_le_singles { (k ≤ singles) × (again ≡ is_seen (flag_of k) c.seen) }
    requires stored { Stored c store.now s.now }
    ensures { Told c store.now s.now k (first_value altid_name s.now) (instance result) }
{
    let Some(Span { start, end }) = f else {
        return if again {
            Instance::Second
        } else {
            Instance::Further
        };
    };
    if !again {
        return Instance::Opened {
            from: start,
            to: end,
        };
    }
    if card_state::tags::is_kept(c.tags, k, store, &s[start..end]) {
        Instance::Further
    } else {
        Instance::Second
    }
}

// The state with the ALTID value of the line, where it is to be kept.
fn with_value(c: Card, k: usize, i: Instance) -> Card
    requires from_le_to { ((instance i).from ≤ (instance i).to) × (c.used + ((instance i).to - (instance i).from) ≤ limit.octets) }
    requires k_nonzero { (instance i).keeps ≡ true → (0 < k) × (k ≤ singles) }
    ensures { Takes c k (instance i) result }
{
    match i {
        Instance::Opened { from, to } => card_state::tags::keep(c, k, to - from),
        _ => c,
    }
}

// A line that fits its place and its kind: 10 where it starts a second instance, and at END the checks of the card.
fn settle(
    t: &ClassTable,
    s: &[u8],
    value: &[u8],
    x: Parts,
    once: usize,
    again: bool,
    store: &[u8],
    at: usize,
    c: Card,
) -> Judgement
    requires classes { Classes t.now }
    requires parted { Parted x s.now }
    requires row_lt_all { (x.row < property.all) × ((once ≡ once_at x.row) × (once ≤ limit.flags)) }
    requires again_value { again ≡ is_seen (once_flag x.row) c.seen }
    requires counted { Counted c.cards c.lines }
    requires stored { Stored c store.now s.now }
    ensures s_value { read_by result store.now s.now ≡ entered (card_of c store.now) at x.row (first_value altid_name s.now) value.now }
    ensures keeping { Keeping c s.now (added_at x.row c.seen (first_value altid_name s.now)) result }
{
    let row = x.row;
    let f = altid_at(t, s, x, once);
    let i = instance_of(s, f, once, again, store, c);
    if let Instance::Second = i {
        return unkept(Err(Flaw::Placed(Reason::Second, at)));
    }
    let kept = with_value(c, once, i);
    let step = enter(kept, at, row, once, value);
    match i {
        Instance::Opened { from, to } => Judgement { step, from, to },
        _ => unkept(step),
    }
}

// The checks of a line whose parts are known: 9, 8, 7, 10, and at END those of the card.
fn judge_parts(
    t: &ClassTable,
    rows: &PropertyTable,
    steps: &[u8],
    edition: Edition,
    s: &[u8],
    value: &[u8],
    x: Parts,
    store: &[u8],
    at: usize,
    c: Card,
) -> Judgement
    requires tables { Tables t.now rows.now steps.now }
    requires parted { Parted x s.now }
    requires row_lt_all { (x.row < property.all) × (x.kind < kinds.count) }
    requires value_bound { x.value_start + length value.now ≤ limit.octets }
    requires counted { Counted c.cards c.lines }
    requires stored { Stored c store.now s.now }
    ensures s_value { read_by result store.now s.now ≡ judge_parts edition (card_of c store.now) at x.row x.group_length x.param_count x.kind (first_value altid_name s.now) x.value_start value.now }
    ensures keeping { Keeping c s.now (added_at x.row c.seen (first_value altid_name s.now)) result }
{
    let misplaced = !in_order(c.phase, x.row);
    let laden = is_laden(x);
    let fault = value_automaton::judge_value(steps, edition, x.row, x.kind, value);
    if misplaced {
        return unkept(Err(Flaw::Placed(Reason::Order, at)));
    }
    if laden {
        return unkept(Err(Flaw::Placed(Reason::Laden, at)));
    }
    if let Fault::Breaks(octet) = fault {
        return unkept(Err(Flaw::Octet(Reason::Value, x.value_start + octet)));
    }
    let once = property_table::once_of(rows, x.row);
    let again = card_state::is_again(c.seen, once);
    settle(t, s, value, x, once, again, store, at, c)
}

// Judges the line s in an edition, which starts at `at` in the input; the store has the ALTID values that the card's state keeps.
pub fn judge_line(
    t: &ClassTable,
    rows: &PropertyTable,
    steps: &[u8],
    edition: Edition,
    s: &[u8],
    store: &[u8],
    at: usize,
    c: Card,
) -> Judgement
    requires tables { Tables t.now rows.now steps.now }
    requires counted { Counted c.cards c.lines }
    requires stored { Stored c store.now s.now }
    ensures s_value { read_by result store.now s.now ≡ judge_line edition (card_of c store.now) at s.now }
    ensures keeping { Keeping c s.now (added_by edition c.seen s.now) result }
{
    let bad = utf8_screening::units::first_bad(t, s, false);
    if bad < s.len() {
        return unkept(Err(Flaw::Octet(Reason::BadOctet, bad)));
    }
    match card_line::parts_of(t, rows, edition, s) {
        Err(reason) => unkept(Err(Flaw::Placed(reason, at))),
        Ok(x) => {
            let start = x.value_start;
            judge_parts(t, rows, steps, edition, s, &s[start..], x, store, at, c)
        }
    }
}
