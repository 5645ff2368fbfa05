// Two edits of one card: the planner proposes pairs of lines, and the checker accepts exactly the plans that pass.
#![tactic(auto)]

ghost use Rattle.std.specs.Prelude.{◌≡◌, true, ◌+◌, ◌<◌, ◌≤◌, min, length, take, replicate};
ghost use Rattle.numbers.specs.Limits as limit;
ghost use Rattle.octets.specs.Room.{overlay};
ghost use Rattle.merge_sources.specs.Row.{row_of};
ghost use Rattle.merge_pids.specs.Marks.{marked};
ghost use Rattle.merge_partners.specs.Pairs.{joined, joined_first, first_of, pairs_from};
ghost use Rattle.merge.specs.Paired.{paired};
ghost use Rattle.merge.specs.Sides.{side, over_side, settled, settle_of, own_row_of};
ghost use Rattle.merge.specs.Plans.{flatten, put_partner, put_partners, enter_to, enter_step, enter_all, is_kept, covers_from};
ghost use Rattle.merge.specs.Outcome.{planned, plan_rows, check_rows, plan_outcome, check_outcome};

use merge_partners::{Partners, Side};
use merge_sources::{Row, Source};
use numbers::limit;
use numbers::refusal::{Reason, Refusal};
use octets::indices::wide_number;
use property_table::Edition;

// How many numbers the marks of a card may take.
const MARKS: usize = limit::LINES * merge_pids::MARK;

// How many numbers a pair has.
const PAIR: usize = 2;

// How many numbers the records of a card may take.
const RECORDS: usize = limit::LINES * limit::RECORD_LENGTH;

// Whether a side is over a limit: cards, entries of its row, CLIENTPIDMAP lines, or a number over 65,535.
fn is_over(cards: usize, lent: usize, own: Row, marks: &[u32], end: usize) -> bool
    ensures { result ≡ over_side cards lent own (marked end marks.now) }
{
    if cards != 1 {
        return true;
    }
    if limit::SOURCES < lent {
        return true;
    }
    if limit::SOURCES < own.count {
        return true;
    }
    if merge_sides::over_entries(own) {
        return true;
    }
    merge_sides::over_marks(marks, end)
}

// The demanded pairs of two accepted cards, or 71, 72 or 70; the partners of the first card's lines are left in p.
fn settle<'a>(
    x: &Side<'a>,
    x_cards: usize,
    a: Row,
    y: &Side<'a>,
    y_cards: usize,
    b: Row,
    p: &mut Partners,
) -> Result<usize, Refusal>
    ensures { settled (paired result) p.new ≡ settle_of (side x.now.copy.now x.now.records.now x_cards x.now.lines) (side y.now.copy.now y.now.records.now y_cards y.now.lines) a b p.old }
{
    let t = octets::classes::table();
    let mut firsts = [0u32; MARKS];
    let mut seconds = [0u32; MARKS];
    let ea = merge_sides::put_marks(&t, x.copy, x.records, x.lines, &mut firsts);
    let eb = merge_sides::put_marks(&t, y.copy, y.records, y.lines, &mut seconds);
    let own_a = merge_sides::own_row(x.copy, x.records, x.lines);
    let own_b = merge_sides::own_row(y.copy, y.records, y.lines);
    if is_over(x_cards, a.count, own_a, &firsts, ea) {
        return Err(Refusal(Reason::MergeLimit, 0));
    }
    if is_over(y_cards, b.count, own_b, &seconds, eb) {
        return Err(Refusal(Reason::MergeLimit, 0));
    }
    if !merge_sources::same_row(own_a, a) {
        return Err(Refusal(Reason::SourceRow, 0));
    }
    if !merge_sources::same_row(own_b, b) {
        return Err(Refusal(Reason::SourceRow, 0));
    }
    if !merge_partners::same_uids(x, y) {
        return Err(Refusal(Reason::NoPlan, 0));
    }
    if !merge_partners::join_all(
        x,
        &firsts,
        ea / merge_pids::MARK,
        a,
        y,
        &seconds,
        eb / merge_pids::MARK,
        b,
        p,
    ) {
        return Err(Refusal(Reason::NoPlan, 0));
    }
    Ok(merge_partners::count_pairs(p))
}

// Writes the pair of line i, where it has a partner and there is room, and answers where the next one goes.
fn put_partner(i: usize, partner: u32, out: &mut [u32], at: usize) -> usize
    requires { i < limit.lines }
    ensures { marked result out.new ≡ put_partner (marked at out.old) i partner }
{
    if partner == 0 {
        return at;
    }
    if out.len() < PAIR {
        return at;
    }
    if out.len() - PAIR < at {
        return at;
    }
    out[at] = i as u32;
    out[at + 1] = partner - 1;
    at + PAIR
}

// Writes the pairs in the order of the first card's lines.
fn put_pairs(p: &Partners, out: &mut [u32])
    requires { length (flatten (pairs_from p.now 0 limit.lines)) ≤ length out.old }
    ensures { out.new ≡ overlay (flatten (pairs_from p.now 0 limit.lines)) out.old }
{
    let mut at: usize = 0;
    for (i, partner) in p.iter().enumerate() {
        at = put_partner(i, *partner, out, at);
    }
}

// The planner on rows by value.
pub fn plan_rows(
    first: &[u8],
    second: &[u8],
    a: Row,
    b: Row,
    out: &mut [u32],
) -> Result<usize, Refusal>
    ensures { planned (paired result) out.new ≡ plan_rows first.now second.now a b out.old }
{
    let mut ca = [0u8; limit::OCTETS];
    let mut ra = [0u32; RECORDS];
    let x_counts = reader::read(Edition::First, first, &mut ca, &mut ra)?;
    let x = Side {
        copy: &ca,
        records: &ra,
        lines: x_counts.lines,
    };
    let mut cb = [0u8; limit::OCTETS];
    let mut rb = [0u32; RECORDS];
    let y_counts = reader::read(Edition::First, second, &mut cb, &mut rb)?;
    let y = Side {
        copy: &cb,
        records: &rb,
        lines: y_counts.lines,
    };
    let mut p = [0u32; limit::LINES];
    let n = settle(&x, x_counts.cards, a, &y, y_counts.cards, b, &mut p)?;
    if out.len() < n * PAIR {
        return Err(Refusal(Reason::RecordRoom, n * PAIR));
    }
    put_pairs(&p, out);
    Ok(n)
}

// Enters a pair of a plan; false where a line is none, or stands in the plan already.
fn enter(p: &mut Partners, t: &mut Partners, na: usize, nb: usize, i: usize, j: usize) -> bool
    ensures { joined result p.new t.new ≡ enter_to na nb p.old t.old i j }
{
    if na <= i {
        return false;
    }
    if nb <= j {
        return false;
    }
    if limit::LINES <= i {
        return false;
    }
    if limit::LINES <= j {
        return false;
    }
    if p[i] != 0 {
        return false;
    }
    if t[j] != 0 {
        return false;
    }
    p[i] = (j + 1) as u32;
    t[j] = (i + 1) as u32;
    true
}

// Enters a pair of a plan where its lines have one property.
fn enter_step(x: &Side, y: &Side, i: usize, j: usize, p: &mut Partners, t: &mut Partners) -> bool
    ensures { joined result p.new t.new ≡ enter_step x.now.copy.now x.now.records.now x.now.lines y.now.copy.now y.now.records.now y.now.lines p.old t.old i j }
{
    if !merge_sides::same_property(x.copy, x.records, i, y.copy, y.records, j) {
        return false;
    }
    enter(p, t, x.lines, y.lines, i, j)
}

// Enters the pairs of a plan; false for an odd count, a number that is no line's, a line twice, or lines of two properties.
fn enter_plan(x: &Side, y: &Side, plan: &[u32], p: &mut Partners) -> bool
    ensures { joined_first result p.new ≡ first_of (enter_all x.now.copy.now x.now.records.now x.now.lines y.now.copy.now y.now.records.now y.now.lines (joined true p.old (replicate limit.lines 0)) plan.now) }
{
    let mut t = [0u32; limit::LINES];
    let mut at: usize = 0;
    while at < plan.len() {
        if plan.len() - at < PAIR {
            return false;
        }
        let i = wide_number(plan[at]);
        let j = wide_number(plan[at + 1]);
        if !enter_step(x, y, i, j, p, &mut t) {
            return false;
        }
        at += PAIR;
    }
    true
}

// Whether a line's partner, where it has one, is this one.
fn is_kept(partner: u32, other: u32) -> bool
    ensures { result ≡ is_kept partner other }
{
    if partner == 0 {
        return true;
    }
    partner == other
}

// Whether each line with a partner in p has the same one in q.
fn covers(p: &Partners, q: &Partners) -> bool
    ensures { result ≡ covers_from p.now q.now 0 limit.lines }
{
    for (i, partner) in p.iter().enumerate() {
        if !is_kept(*partner, q[i]) {
            return false;
        }
    }
    true
}

// The checker on rows by value.
pub fn check_rows(
    first: &[u8],
    second: &[u8],
    a: Row,
    b: Row,
    plan: &[u32],
) -> Result<usize, Refusal>
    ensures { paired result ≡ check_rows first.now second.now a b plan.now }
{
    let mut ca = [0u8; limit::OCTETS];
    let mut ra = [0u32; RECORDS];
    let x_counts = reader::read(Edition::First, first, &mut ca, &mut ra)?;
    let x = Side {
        copy: &ca,
        records: &ra,
        lines: x_counts.lines,
    };
    let mut cb = [0u8; limit::OCTETS];
    let mut rb = [0u32; RECORDS];
    let y_counts = reader::read(Edition::First, second, &mut cb, &mut rb)?;
    let y = Side {
        copy: &cb,
        records: &rb,
        lines: y_counts.lines,
    };
    let mut p = [0u32; limit::LINES];
    settle(&x, x_counts.cards, a, &y, y_counts.cards, b, &mut p)?;
    let mut q = [0u32; limit::LINES];
    if !enter_plan(&x, &y, plan, &mut q) {
        return Err(Refusal(Reason::Plan, 0));
    }
    if !covers(&p, &q) {
        return Err(Refusal(Reason::Plan, 0));
    }
    Ok(plan.len() / PAIR)
}

// The planner: proposes the demanded pairs of two edits of one card, each with the row of its sources that the host lends.
pub fn plan(
    first: &[u8],
    second: &[u8],
    m: &[Source],
    n: &[Source],
    out: &mut [u32],
) -> Result<usize, Refusal>
    ensures { planned (paired result) out.new ≡ plan_outcome first.now second.now m.now n.now out.old }
{
    let a = merge_sources::row_of(m);
    let b = merge_sources::row_of(n);
    plan_rows(first, second, a, b, out)
}

// The checker: accepts a plan that passes.
pub fn check(
    first: &[u8],
    second: &[u8],
    m: &[Source],
    n: &[Source],
    plan: &[u32],
) -> Result<usize, Refusal>
    ensures { paired result ≡ check_outcome first.now second.now m.now n.now plan.now }
{
    let a = merge_sources::row_of(m);
    let b = merge_sources::row_of(n);
    check_rows(first, second, a, b, plan)
}

// The entries of a row as a program holds them, at most seventeen.
pub type Entries = merge_sources::Entries;

// The planner on rows that a program has in arrays: it lends the first k and l entries, at most seventeen.
pub fn lend_plan(
    first: &[u8],
    second: &[u8],
    a: Entries,
    k: usize,
    b: Entries,
    l: usize,
    out: &mut [u32],
) -> Result<usize, Refusal>
    ensures { planned (paired result) out.new ≡ plan_outcome first.now second.now (take (min k (limit.sources + 1)) a) (take (min l (limit.sources + 1)) b) out.old }
{
    let x = merge_sources::lend_row(a, k);
    let y = merge_sources::lend_row(b, l);
    plan_rows(first, second, x, y, out)
}

// The checker on such rows.
pub fn lend_check(
    first: &[u8],
    second: &[u8],
    a: Entries,
    k: usize,
    b: Entries,
    l: usize,
    plan: &[u32],
) -> Result<usize, Refusal>
    ensures { paired result ≡ check_outcome first.now second.now (take (min k (limit.sources + 1)) a) (take (min l (limit.sources + 1)) b) plan.now }
{
    let x = merge_sources::lend_row(a, k);
    let y = merge_sources::lend_row(b, l);
    check_rows(first, second, x, y, plan)
}

// A card's own row; an empty one where the reader refuses the card.
pub fn sources_of(card: &[u8]) -> Row
    ensures { result ≡ own_row_of card.now }
{
    let mut c = [0u8; limit::OCTETS];
    let mut r = [0u32; RECORDS];
    let Ok(counts) = reader::read(Edition::First, card, &mut c, &mut r) else {
        return merge_sources::empty(0);
    };
    merge_sides::own_row(&c, &r, counts.lines)
}
