// What is known of the card that is being read, and what a line or an END does to it.
#![tactic(auto)]

ghost use Rattle.std.specs.Prelude.{◌≡◌, false, ◌||◌, ◌&&◌, eqb, ℕ, ◌<◌, ◌≤◌, List};
ghost use Rattle.numbers.specs.Limits as limit;
ghost use Rattle.numbers.specs.Properties as property;
ghost use Rattle.property_table.specs.Rows.{once_at};
ghost use Rattle.card_state.specs.State.{Counted, flag_of, is_seen, phase_after, closed};
ghost use Rattle.card_state.specs.Kept.{fresh_kept, card_of, step_of, Holds, gone_on};

pub mod tags;

use numbers::property;
use numbers::refusal::Reason;
use tags::Tags;

// The phase of a card: BEGIN has not come.
pub const BEFORE_BEGIN: u32 = 0;

// The phase of a card: BEGIN has come, and VERSION not yet.
pub const BEFORE_VERSION: u32 = 1;

// The phase of a card: VERSION has come.
pub const INSIDE: u32 = 2;

// What is known of the card that is being read.
#[derive(Clone, Copy, Debug, PartialEq, Eq)]
pub struct Card {
    // The cards that have ended, and the lines that were judged.
    pub cards: usize,
    pub lines: usize,
    // How far it has come: BEFORE_BEGIN, BEFORE_VERSION or INSIDE.
    pub phase: u32,
    // The flags of the single properties that stand in the card so far.
    pub seen: u32,
    // Where the ALTID values of their first lines are kept, and how many octets these have together.
    pub tags: Tags,
    pub used: usize,
    // An FN line, a MEMBER line, a KIND line with the value group.
    pub has_fn: bool,
    pub has_member: bool,
    pub is_group: bool,
}

// Why a line is refused: a reason with its place in the input, or with the octet of the unfolded line.
#[derive(Clone, Copy, Debug, PartialEq, Eq)]
pub enum Flaw {
    Placed(Reason, usize),
    Octet(Reason, usize),
}

// The card after a line.
pub type Step = Result<Card, Flaw>;

// Before the first line.
pub fn fresh() -> Card
    ensures { result ≡ fresh_kept }
{
    let tags = tags::none();
    Card {
        cards: 0,
        lines: 0,
        phase: BEFORE_BEGIN,
        seen: 0,
        tags,
        used: 0,
        has_fn: false,
        has_member: false,
        is_group: false,
    }
}

// The flag of the k-th property that a card has at most once, counted from 1; 0 for none.
fn flag_of(k: usize) -> u32
    requires { k ≤ limit.flags }
    ensures { result ≡ flag_of k }
{
    if k == 0 {
        return 0;
    }
    1 << (k - 1)
}

// Whether a line of the k-th property that a card has at most once is among those seen.
pub fn is_again(seen: u32, k: usize) -> bool
    requires { k ≤ limit.flags }
    ensures { result ≡ is_seen (flag_of k) seen }
{
    let flag = flag_of(k);
    if flag == 0 {
        return false;
    }
    seen / flag % 2 == 1
}

// Whether the line is a KIND line with the value group.
fn says_group(row: usize, group: bool) -> bool
    ensures { result ≡ (eqb row property.kind && group) }
{
    row == property::KIND && group
}

// The phase after a line of the row.
fn phase_after(row: usize) -> u32
    ensures { result ≡ phase_after row }
{
    if row == property::BEGIN {
        return BEFORE_VERSION;
    }
    INSIDE
}

// The end of a card: 11, 12, or the state before the next card.
pub fn close(c: Card, at: usize) -> Step
    requires { Counted c.cards c.lines }
    ensures by_index { (store : List ℕ) → step_of store result ≡ closed (card_of c store) at }
    ensures holds { Holds 0 result }
{
    if !c.has_fn {
        return Err(Flaw::Placed(Reason::NoFn, at));
    }
    if c.has_member && !c.is_group {
        return Err(Flaw::Placed(Reason::Member, at));
    }
    let mut next = fresh();
    next.cards = c.cards + 1;
    next.lines = c.lines + 1;
    Ok(next)
}

// The state after a line of the row, not END, that may stand here. `once` is the row's number among those that a card has at most once, and
// `group` says whether the value is group.
pub fn note(c: Card, row: usize, once: usize, group: bool) -> Card
    requires lines_lt_octets { c.lines < limit.octets }
    requires once_value { (once ≡ once_at row) × (once ≤ limit.flags) }
    ensures { result ≡ gone_on c row group }
{
    let grouped = says_group(row, group);
    let tags = c.tags;
    Card {
        cards: c.cards,
        lines: c.lines + 1,
        phase: phase_after(row),
        seen: c.seen | flag_of(once),
        tags,
        used: c.used,
        has_fn: c.has_fn || row == property::FN,
        has_member: c.has_member || row == property::MEMBER,
        is_group: c.is_group || grouped,
    }
}
