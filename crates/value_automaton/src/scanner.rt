// The scanner of values: a table that leads from state to state, and the fault of a value from a state on.
ghost use Rattle.std.specs.Prelude.{◌≡◌, true, ◌+◌, ◌<◌, ◌≤◌, length, drop};
ghost use Rattle.numbers.specs.Kinds as kinds;
ghost use Rattle.octets.specs.Counts.{all_in};
ghost use Rattle.value_kinds.specs.Octets.{graphic, holds};
ghost use Rattle.value_kinds.specs.Shapes.{fault_from};
ghost use Rattle.value_kinds.specs.Kinds.{shape_in};
ghost use Rattle.value_automaton.specs.States.{state_count, uri_tail, state_shape, Whole, Scanner, Next};

use crate::states;
use crate::states::Transitions;
use numbers::kind;
use octets::indices::wide;
use property_table::Edition;
use value_kinds::Fault;

// The table as a value.
fn whole_table() -> Transitions
    ensures { Whole result }
{
    states::TABLE
}

// The table as a value, which its users are lent: a use of the constant in a loop would build it there at each turn. Who is lent no octets builds
// it for each value that needs it.
pub fn table() -> Transitions
    ensures { Scanner result }
{
    whole_table()
}

// The state in which a value of N starts.
fn start_of_name(edition: Edition) -> u8
    ensures upper_bound { result < state_count }
    ensures result_value { state_shape result ≡ shape_in edition kinds.name }
{
    match edition {
        Edition::First => states::NAME,
        Edition::Second => states::WIDER_NAME,
    }
}

// The state in which a value of ADR starts.
fn start_of_address(edition: Edition) -> u8
    ensures upper_bound { result < state_count }
    ensures result_value { state_shape result ≡ shape_in edition kinds.address }
{
    match edition {
        Edition::First => states::ADDRESS,
        Edition::Second => states::WIDER_ADDRESS,
    }
}

// The state in which a value of each kind starts.
pub fn start(edition: Edition, kind: usize) -> u8
    requires { kind < kinds.count }
    ensures upper_bound { result < state_count }
    ensures result_value { state_shape result ≡ shape_in edition kind }
{
    match kind {
        kind::ANYTHING => states::ANYTHING,
        kind::TEXT => states::TEXT,
        kind::TEXTS => states::TEXTS,
        kind::URI => states::URI,
        kind::NAME => start_of_name(edition),
        kind::ADDRESS => start_of_address(edition),
        kind::ORGANIZATION => states::ORGANIZATION,
        kind::GENDER => states::GENDER,
        kind::PIDMAP => states::PIDMAP,
        kind::DATE => states::DATE,
        kind::TIMESTAMP => states::TIMESTAMP,
        _ => states::OFFSET,
    }
}

// The state after the octet x in the state q.
fn step(steps: &[u8], q: u8, x: u8) -> u8
    requires whole { Whole steps.now }
    requires q_lt_state_count { q < state_count }
    ensures { Next q x result }
{
    let c = steps[wide(x)];
    steps[256 + (wide(q) * states::STRIDE + wide(c))] - c
}

// True only where the step at i led into a URI's last part and all that comes is of it.
fn is_settled(n: u8, s: &[u8], i: usize) -> bool
    requires { i < length s.now }
    ensures { result ≡ true → (n ≡ uri_tail) × (all_in (holds graphic) (drop (i + 1) s.now) ≡ true) }
{
    if n != states::URI_TAIL {
        return false;
    }
    let a = i + 1;
    value_kinds::is_printing(&s[a..])
}

// A place up to which all octets from `from` on leave the state as it is.
fn stay(steps: &[u8], q: u8, s: &[u8], from: usize) -> usize
    requires whole { Whole steps.now }
    requires q_nonzero { (0 < q) × (q < state_count) }
    requires from_in_bounds { from ≤ length s.now }
    ensures lower_bound { (from ≤ result) × (result ≤ length s.now) }
    ensures s_value { fault_from (state_shape q) from (drop from s.now) ≡ fault_from (state_shape q) result (drop result s.now) }
{
    let mut i = from;
    while i < s.len() {
        if step(steps, q, s[i]) != q {
            return i;
        }
        i += 1;
    }
    i
}

// The fault of s from a state on, by the table.
fn scan_by(steps: &[u8], first: u8, s: &[u8]) -> Fault
    requires whole { Whole steps.now }
    requires first_lt_state_count { first < state_count }
    ensures { result ≡ fault_from (state_shape first) 0 s.now }
{
    let mut q = first;
    let mut i: usize = 0;
    while i < s.len() {
        let n = step(steps, q, s[i]);
        if n == states::DEAD {
            return Fault::Breaks(i);
        }
        if n == q {
            i = stay(steps, q, s, i + 1);
        } else {
            if is_settled(n, s, i) {
                return Fault::Fits;
            }
            q = n;
            i += 1;
        }
    }
    if q < states::FIRST_NULLABLE {
        return Fault::Breaks(i);
    }
    Fault::Fits
}

// The fault of s from a state on, by a table that is built for it.
fn scan_anew(first: u8, s: &[u8]) -> Fault
    requires { first < state_count }
    ensures { result ≡ fault_from (state_shape first) 0 s.now }
{
    let steps = whole_table();
    scan_by(&steps, first, s)
}

// The fault of s from a state on.
pub fn scan(steps: &[u8], first: u8, s: &[u8]) -> Fault
    requires scanner { Scanner steps.now }
    requires first_lt_state_count { first < state_count }
    ensures { result ≡ fault_from (state_shape first) 0 s.now }
{
    if steps.len() == 0 {
        return scan_anew(first, s);
    }
    scan_by(steps, first, s)
}
