// Whether a value satisfies its kind, and if not, from which octet on nothing could.
#![tactic(auto)]

ghost use Rattle.std.specs.Prelude.{◌≡◌, true, ◌<◌};
ghost use Rattle.numbers.specs.Kinds as kinds;
ghost use Rattle.octets.specs.Classes.{bit};
ghost use Rattle.value_kinds.specs.Octets.{neither};
ghost use Rattle.value_kinds.specs.Shapes.{Matches};
ghost use Rattle.value_kinds.specs.Kinds.{kind_in, line_shape, value_in, vcard, version};
ghost use Rattle.value_kinds.specs.declared.Fault.TheVariants.{Fits as fitsIt};
ghost use Rattle.value_automaton.specs.States.{state_count, state_shape, Scanner};

pub mod scanner;
pub mod states;
mod uris;

use numbers::{kind, property};
use property_table::Edition;
use states::Transitions;
use value_kinds::Fault;

// The length below which a value is scanned at once, since a look at pairs of octets costs more.
const SHORT: usize = 32;

// True only where a look without the table shows that s satisfies its kind.
fn does_fit(edition: Edition, kind: usize, s: &[u8]) -> bool
    ensures { result ≡ true → fitsIt ≡ kind_in edition kind s.now }
{
    if value_kinds::fits_at_once(edition, kind, s) {
        return true;
    }
    if kind == kind::URI {
        return uris::is_uri(s);
    }
    if s.len() < SHORT {
        return false;
    }
    value_kinds::pairs::fits_by_pairs(kind, s)
}

// Whether s satisfies its kind: `Breaks` has the first octet from which nothing could, or the end.
pub fn value_fault(steps: &Transitions, edition: Edition, kind: usize, s: &[u8]) -> Fault
    requires scanner { Scanner steps.now }
    requires kind_lt_count { kind < kinds.count }
    ensures { result ≡ kind_in edition kind s.now }
{
    if does_fit(edition, kind, s) {
        return Fault::Fits;
    }
    let first = scanner::start(edition, kind);
    scanner::scan(steps, first, s)
}

// 0 for the octets a and b, else 1.
fn other_bit(a: u8, b: u8, x: u8) -> u8
    ensures { result ≡ bit (neither a b x) 1 }
{
    (x != a) as u8 & (x != b) as u8
}

// True only where s is VCARD in any case.
fn is_vcard(s: &[u8]) -> bool
    ensures { result ≡ true → Matches vcard s.now }
{
    if s.len() != 5 {
        return false;
    }
    let vc = other_bit(b'V', b'v', s[0]) | other_bit(b'C', b'c', s[1]);
    let ard = other_bit(b'A', b'a', s[2])
        | other_bit(b'R', b'r', s[3])
        | other_bit(b'D', b'd', s[4]);
    vc | ard == 0
}

// True only where s is 4.0.
fn is_four(s: &[u8]) -> bool
    ensures { result ≡ true → Matches version s.now }
{
    if s.len() != 3 {
        return false;
    }
    (s[0] != b'4') as u8 | (s[1] != b'.') as u8 | (s[2] != b'0') as u8 == 0
}

// True only where a look without the table shows that s satisfies what its row asks.
fn does_satisfy(edition: Edition, row: usize, kind: usize, s: &[u8]) -> bool
    ensures { result ≡ true → fitsIt ≡ value_in edition row kind s.now }
{
    if !property_table::is_framing(row) {
        return does_fit(edition, kind, s);
    }
    if row == property::VERSION {
        return is_four(s);
    }
    is_vcard(s)
}

// The state in which a value of the row starts.
fn first_state(edition: Edition, row: usize, kind: usize) -> u8
    requires { kind < kinds.count }
    ensures upper_bound { result < state_count }
    ensures result_value { state_shape result ≡ line_shape edition row kind }
{
    if !property_table::is_framing(row) {
        return scanner::start(edition, kind);
    }
    if row == property::VERSION {
        return states::VERSION;
    }
    states::VCARD
}

// Whether s satisfies what its row asks: VCARD on BEGIN and END, 4.0 on VERSION, else the line's kind. The scanner is asked at one place, so that
// it is compiled into the walk.
pub fn judge_value(steps: &[u8], edition: Edition, row: usize, kind: usize, s: &[u8]) -> Fault
    requires scanner { Scanner steps.now }
    requires kind_lt_count { kind < kinds.count }
    ensures { result ≡ value_in edition row kind s.now }
{
    if does_satisfy(edition, row, kind, s) {
        return Fault::Fits;
    }
    let first = first_state(edition, row, kind);
    scanner::scan(steps, first, s)
}
