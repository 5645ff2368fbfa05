// The judgement of a card that is taken in from version 3 or given out to it, line by line: 5, 40 to 43, 9, 8, and 50 or 51.
#![tactic(auto)]

ghost use Rattle.std.specs.Prelude.{◌≡◌, false, not, ◌&&◌, ◌||◌, eqb, ◌+◌, ◌≤◌, ◌<◌, length, drop};
ghost use Rattle.numbers.specs.Kinds as kinds;
ghost use Rattle.numbers.specs.Limits as limit;
ghost use Rattle.numbers.specs.Properties as property;
ghost use Rattle.numbers.specs.Refusals.{number};
ghost use Rattle.octets.specs.Pick.{pick};
ghost use Rattle.octets.specs.Cases.{same};
ghost use Rattle.octets.specs.Classes.{Classes};
ghost use Rattle.line_folds.specs.Folds.{unfolded};
ghost use Rattle.line_folds.specs.Logical.{raw_lines};
ghost use Rattle.property_table.specs.declared.Edition.TheVariants.{First};
ghost use Rattle.value_automaton.specs.States.{Scanner};
ghost use Rattle.card_line.specs.Parts.{Accepted, line_parts_of};
ghost use Rattle.card_line.specs.Parts.{line};
ghost use Rattle.card_judge.specs.Judge.{Tables, laden};
ghost use Rattle.version3_geo.specs.Floats.{old_geo};
ghost use Rattle.version3_parameters.specs.Places.{params_of};
ghost use Rattle.version3_judge.specs.declared.Phase.TheVariants.{Inside, Ended};
ghost use Rattle.version3_judge.specs.Judge.{fresh_set, number_of, in_place, common, of_kind, short, fills, goes_over, version_read, whole, frames, goes, good, noted, judge_parts, judge_line, settled, judge_lines, Refused, step, stopped, walked};

use card_line::Parts;
use card_state::Flaw;
use numbers::refusal::{Reason, Refusal};
use numbers::{kind, limit, property};
use octets::cases::same_name;
use octets::classes::ClassTable;
use property_table::Edition;
use property_table::rows::PropertyTable;
use value_automaton::states::Transitions;
use value_kinds::Fault;
use version3_parameters::Way;

// How far the card has come: BEGIN has not come, it has, or END has.
#[derive(Clone, Copy, Debug, PartialEq, Eq)]
pub enum Phase {
    BeforeBegin,
    Inside,
    Ended,
}

// What is known of the card.
#[derive(Clone, Copy, Debug, PartialEq, Eq)]
pub struct Set {
    pub phase: Phase,
    // An FN line, an N line, the VERSION line.
    pub has_fn: bool,
    pub has_n: bool,
    pub has_version: bool,
}

// Before the first line.
fn fresh() -> Set
    ensures { result ≡ fresh_set }
{
    Set {
        phase: Phase::BeforeBegin,
        has_fn: false,
        has_n: false,
        has_version: false,
    }
}

// Why a line is refused that is not taken in, or not given out.
fn reason_of(way: Way) -> Reason
    ensures { number result ≡ number_of way }
{
    match way {
        Way::Inward => Reason::NotTakenIn,
        Way::Outward => Reason::NotGivenOut,
    }
}

// Whether a line of the row may stand here: BEGIN first, no other BEGIN inside, and nothing but BEGIN after END.
fn in_order(phase: Phase, row: usize) -> bool
    ensures { result ≡ in_place phase row }
{
    match phase {
        Phase::Inside => row != property::BEGIN,
        Phase::BeforeBegin | Phase::Ended => row == property::BEGIN,
    }
}

// Whether a framing line has a group or a parameter.
fn is_laden(x: Parts) -> bool
    ensures { result ≡ laden x.row x.group_length x.param_count }
{
    property_table::is_framing(x.row) && (x.group_length != 0 || x.param_count != 0)
}

// Whether lines of the row are in cards of both versions.
fn is_common(row: usize) -> bool
    ensures { result ≡ common row }
{
    if row == property::TEL {
        return true;
    }
    if row == property::EMAIL {
        return true;
    }
    if row == property::FN {
        return true;
    }
    if row == property::N {
        return true;
    }
    if row == property::ADR {
        return true;
    }
    if row == property::NOTE {
        return true;
    }
    if row == property::TITLE {
        return true;
    }
    if row == property::ROLE {
        return true;
    }
    if row == property::ORG {
        return true;
    }
    if row == property::GEO {
        return true;
    }
    row == property::URL
}

// Whether a value is of the kind.
fn is_of_kind(steps: &Transitions, kind: usize, value: &[u8]) -> bool
    requires scanner { Scanner steps.now }
    requires kind_lt_count { kind < kinds.count }
    ensures { result ≡ of_kind kind value.now }
{
    let fault = value_automaton::value_fault(steps, Edition::First, kind, value);
    match fault {
        Fault::Fits => true,
        Fault::Breaks(octet) => false,
    }
}

// Whether a value is lists of texts with fewer than so many bare semicolons.
fn is_short(steps: &Transitions, most: usize, value: &[u8]) -> bool
    requires { Scanner steps.now }
    ensures { result ≡ short most value.now }
{
    is_of_kind(steps, kind::TEXTS, value) && version3_text::count_semicolons(value) < most
}

// Whether a value of version 3 is a name of at most five components, an address of at most seven, else of its kind.
fn does_fill(steps: &Transitions, kind: usize, value: &[u8]) -> bool
    requires scanner { Scanner steps.now }
    requires kind_lt_count { kind < kinds.count }
    ensures { result ≡ fills kind value.now }
{
    if kind == kind::NAME {
        return is_short(steps, 5, value);
    }
    if kind == kind::ADDRESS {
        return is_short(steps, 7, value);
    }
    is_of_kind(steps, kind, value)
}

// Whether a GEO value of version 3 goes over: as one of version 4 it would be no text.
fn is_old_geo(kind: usize, value: &[u8]) -> bool
    ensures { result ≡ (not (eqb kind kinds.text) && old_geo value.now) }
{
    if kind == kind::TEXT {
        return false;
    }
    version3_geo::is_old(value)
}

// Whether the value of a line goes over to the other version.
fn does_go_over(way: Way, steps: &Transitions, row: usize, kind: usize, value: &[u8]) -> bool
    requires scanner { Scanner steps.now }
    requires kind_lt_count { kind < kinds.count }
    ensures { result ≡ goes_over way row kind value.now }
{
    match way {
        Way::Inward => {
            if row == property::GEO {
                return is_old_geo(kind, value);
            }
            does_fill(steps, kind, value)
        }
        Way::Outward => {
            if row == property::GEO {
                return version3_geo::is_new(value);
            }
            true
        }
    }
}

// Whether a value is the number of the version that is read.
fn is_version(way: Way, value: &[u8]) -> bool
    ensures { result ≡ same value.now (version_read way) }
{
    match way {
        Way::Inward => same_name(value, b"3.0"),
        Way::Outward => same_name(value, b"4.0"),
    }
}

// Whether FN, N and VERSION have come.
fn is_whole(c: Set) -> bool
    ensures { result ≡ whole c }
{
    c.has_fn && c.has_n && c.has_version
}

// Whether a framing line is the one that may stand here.
fn does_frame(way: Way, c: Set, row: usize, value: &[u8]) -> bool
    ensures { result ≡ frames way c row value.now }
{
    if row == property::VERSION {
        if c.has_version {
            return false;
        }
        return is_version(way, value);
    }
    if !same_name(value, b"VCARD") {
        return false;
    }
    if row == property::BEGIN {
        return matches!(c.phase, Phase::BeforeBegin);
    }
    is_whole(c)
}

// Whether a line of N is a second one.
fn is_second(c: Set, row: usize) -> bool
    ensures { result ≡ (eqb row property.n && c.has_n) }
{
    row == property::N && c.has_n
}

// Whether a line that frames nothing may stand here and goes over.
fn does_go(
    way: Way,
    t: &ClassTable,
    steps: &Transitions,
    c: Set,
    s: &[u8],
    x: Parts,
    value: &[u8],
) -> bool
    requires classes { Classes t.now × Scanner steps.now }
    requires accepted { Accepted s.now x.name_end × (x.kind < kinds.count) }
    ensures { result ≡ goes way c x.row x.kind (params_of s.now) value.now }
{
    if !is_common(x.row) {
        return false;
    }
    if is_second(c, x.row) {
        return false;
    }
    let name_end = x.name_end;
    if !version3_parameters::do_prefs_fit(way, t, s, name_end) {
        return false;
    }
    does_go_over(way, steps, x.row, x.kind, value)
}

// Whether a line that is in order and not laden may stand here.
fn is_good(
    way: Way,
    t: &ClassTable,
    steps: &Transitions,
    c: Set,
    s: &[u8],
    x: Parts,
    value: &[u8],
) -> bool
    requires classes { Classes t.now × Scanner steps.now }
    requires accepted { Accepted s.now x.name_end × (x.kind < kinds.count) }
    ensures { result ≡ good way c x.row x.kind (params_of s.now) value.now }
{
    if property_table::is_framing(x.row) {
        return does_frame(way, c, x.row, value);
    }
    does_go(way, t, steps, c, s, x, value)
}

// The phase after a line of the row that may stand here.
fn phase_after(row: usize) -> Phase
    ensures { result ≡ pick (eqb row property.end) Ended Inside }
{
    if row == property::END {
        return Phase::Ended;
    }
    Phase::Inside
}

// The card after a line of the row that may stand here.
fn note(c: Set, row: usize) -> Set
    ensures { result ≡ noted c row }
{
    Set {
        phase: phase_after(row),
        has_fn: c.has_fn | (row == property::FN),
        has_n: c.has_n | (row == property::N),
        has_version: c.has_version | (row == property::VERSION),
    }
}

// The checks of a line whose parts are known: 9, 8, and 50 or 51.
fn judge_parts(
    way: Way,
    t: &ClassTable,
    steps: &Transitions,
    s: &[u8],
    value: &[u8],
    x: Parts,
    at: usize,
    c: Set,
) -> Result<Set, Flaw>
    requires classes { Classes t.now × Scanner steps.now }
    requires accepted { Accepted s.now x.name_end × (x.kind < kinds.count) }
    ensures { step result ≡ judge_parts way c at x.row x.group_length x.param_count x.kind (params_of s.now) value.now }
{
    if !in_order(c.phase, x.row) {
        return Err(Flaw::Placed(Reason::Order, at));
    }
    if is_laden(x) {
        return Err(Flaw::Placed(Reason::Laden, at));
    }
    if !is_good(way, t, steps, c, s, x, value) {
        return Err(Flaw::Placed(reason_of(way), at));
    }
    Ok(note(c, x.row))
}

// Judges the line s, which starts at `at` in the input.
fn judge_line(
    way: Way,
    t: &ClassTable,
    rows: &PropertyTable,
    steps: &Transitions,
    s: &[u8],
    at: usize,
    c: Set,
) -> Result<Set, Flaw>
    requires tables { Tables t.now rows.now steps.now }
    requires s_len_bound { length s.now ≤ limit.octets }
    ensures { step result ≡ judge_line way c at s.now }
{
    let bad = utf8_screening::units::first_bad(t, s, false);
    if bad < s.len() {
        return Err(Flaw::Octet(Reason::BadOctet, bad));
    }
    match card_line::parts_of(t, rows, Edition::First, s) {
        Err(reason) => Err(Flaw::Placed(reason, at)),
        Ok(x) => {
            let start = x.value_start;
            judge_parts(way, t, steps, s, &s[start..], x, at, c)
        }
    }
}

// Judges the logical line s, which starts at `at` in the input: as it is where it has no fold, else unfolded into the scratch.
fn judge_span(
    way: Way,
    t: &ClassTable,
    rows: &PropertyTable,
    steps: &Transitions,
    s: &[u8],
    folds: bool,
    scratch: &mut [u8],
    at: usize,
    c: Set,
) -> Result<Set, Flaw>
    requires tables { Tables t.now rows.now steps.now }
    requires s_in_bounds { (length s.now ≤ length scratch.old) × (length scratch.old ≤ limit.octets) }
    requires s_value { folds ≡ false → unfolded s.now ≡ s.now }
    ensures { step result ≡ judge_line way c at (unfolded s.now) }
{
    if !folds {
        return judge_line(way, t, rows, steps, s, at, c);
    }
    let n = line_unfolding::unfold(s, scratch);
    judge_line(way, t, rows, steps, &scratch[..n], at, c)
}

// The refusal of the line s, which starts at `at` in the input, with the place in the input of an octet that it names.
fn settle(flaw: Flaw, s: &[u8], at: usize) -> Refusal
    requires { at + length s.now ≤ limit.octets }
    ensures { Refused (number result.0) result.1 ≡ settled at s.now (stopped flaw) }
{
    match flaw {
        Flaw::Placed(reason, place) => Refusal(reason, place),
        Flaw::Octet(reason, octet) => {
            let place = line_folds::places::place_of(s, octet);
            Refusal(reason, at + place)
        }
    }
}

// Judges the lines one after the other, up to the first refusal, with a scratch that holds each.
fn walk_in(
    way: Way,
    t: &ClassTable,
    rows: &PropertyTable,
    steps: &Transitions,
    s: &[u8],
    scratch: &mut [u8],
) -> Result<Set, Refusal>
    requires tables { Tables t.now rows.now steps.now }
    requires s_in_bounds { (length s.now ≤ length scratch.old) × (length scratch.old ≤ limit.octets) }
    ensures { walked result ≡ judge_lines way (raw_lines s.now) 0 fresh_set }
{
    let mut c = fresh();
    let mut at: usize = 0;
    while at < s.len() {
        let span = line_folds::spans::line_at(s, at);
        let end = span.end;
        let folds = span.cr != end;
        match judge_span(way, t, rows, steps, &s[at..end], folds, scratch, at, c) {
            Ok(next) => {
                c = next;
                at = end + 2;
            }
            Err(flaw) => return Err(settle(flaw, &s[at..end], at)),
        }
    }
    Ok(c)
}

// An input of at most so many octets is judged with a scratch of as many, since the scratch is made at each call.
const SHORT: usize = 1024;

// Judges the lines one after the other, up to the first refusal.
pub fn walk(
    way: Way,
    t: &ClassTable,
    rows: &PropertyTable,
    steps: &Transitions,
    s: &[u8],
) -> Result<Set, Refusal>
    requires tables { Tables t.now rows.now steps.now }
    requires s_len_bound { length s.now ≤ limit.octets }
    ensures { walked result ≡ judge_lines way (raw_lines s.now) 0 fresh_set }
{
    if s.len() <= SHORT {
        let mut scratch = [0u8; SHORT];
        return walk_in(way, t, rows, steps, s, &mut scratch);
    }
    let mut scratch = [0u8; limit::OCTETS];
    walk_in(way, t, rows, steps, s, &mut scratch)
}
