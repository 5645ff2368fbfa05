// The first value of a parameter, by its name.
#![tactic(auto)]

ghost use Rattle.std.specs.Prelude.{◌≡◌, suc, ◌≤◌, length, drop};
ghost use Rattle.octets.specs.Classes.{Classes};
ghost use Rattle.line_parameters.specs.First.{between, first, spanned, find_first};

use octets::classes;
use octets::classes::ClassTable;

// Where octets stand in a line: from `start` up to `end`.
#[derive(Clone, Copy, Debug, PartialEq, Eq)]
pub struct Span {
    pub start: usize,
    pub end: usize,
}

// Where the octets of a well-formed value stand, without its quote marks.
fn value_span(t: &ClassTable, s: &[u8], at: usize) -> Span
    requires classes { Classes t.now }
    requires at_in_bounds { at ≤ length s.now }
    ensures { between result ≡ spanned at (drop at s.now) }
{
    if s.len() <= at {
        return Span { start: at, end: at };
    }
    if s[at] != b'"' {
        let end = classes::span(t, s, at, classes::BARE);
        return Span { start: at, end };
    }
    let end = classes::span(t, s, at + 1, classes::QUOTED);
    Span { start: at + 1, end }
}

// Where the octets of the first value of the first parameter of that name stand, without case, from the end of the line's name on.
pub fn param_first(t: &ClassTable, s: &[u8], from: usize, name: &[u8]) -> Option<Span>
    requires { Classes t.now }
    ensures { first result ≡ find_first name.now from (suc (length (drop from s.now))) (drop from s.now) }
{
    let mut at = from;
    while at < s.len() {
        if s[at] != b';' {
            return None;
        }
        let start = at + 1;
        let Ok(param_end) = line_parser::rule::read_param(t, s, start) else {
            return None;
        };
        let name_end = classes::span(t, s, start, classes::NAME);
        if octets::cases::same_name(&s[start..name_end], name) {
            return Some(value_span(t, s, name_end + 1));
        }
        at = param_end;
    }
    None
}
