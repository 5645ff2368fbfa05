// The part at fault of a line that breaks the line rule, for messages: a name or a parameter, and of a parameter the quote.
ghost use Rattle.std.specs.Prelude.{◌≡◌, suc, length, drop};
ghost use Rattle.octets.specs.Classes.{Classes};
ghost use Rattle.line_parser.specs.Parse.{hd};
ghost use Rattle.line_parser.specs.AtFault.{name_from, param_from, value_from, word_from, at_fault, quote_fault};

use crate::rule;
use octets::classes;
use octets::classes::ClassTable;

// The name that is at fault, or that stands before the fault: where it starts and ends, and whether it is a parameter's.
#[derive(Clone, Copy, Debug, PartialEq, Eq)]
pub struct AtFault {
    pub is_param: bool,
    pub start: usize,
    pub end: usize,
}

// What is wrong with the quote marks of a parameter.
#[derive(Clone, Copy, Debug, PartialEq, Eq)]
pub enum QuoteFault {
    // A quoted value is not closed.
    LeftOpen,
    // After a closed one stands something else than a comma, a semicolon or a colon.
    Followed,
    // A quote mark stands in a bare value.
    InBare,
}

// The octet at a place; 0 past the end.
fn octet_at(s: &[u8], at: usize) -> u8
    ensures { result ≡ hd (drop at s.now) }
{
    if s.len() <= at {
        return 0;
    }
    s[at]
}

// Where the name starts: after a group and its dot, where there is one.
fn name_from(t: &ClassTable, s: &[u8]) -> usize
    requires { Classes t.now }
    ensures { result ≡ name_from s.now }
{
    let end = classes::span(t, s, 0, classes::NAME);
    if end == 0 {
        return 0;
    }
    if octet_at(s, end) != b'.' {
        return 0;
    }
    end + 1
}

// Where the first parameter starts that is not whole; the first one stands after the semicolon at `from`.
fn param_from(t: &ClassTable, s: &[u8], from: usize) -> usize
    requires { Classes t.now }
    ensures { result ≡ param_from (suc (length s.now)) from s.now }
{
    let mut at = from;
    while at < s.len() {
        let Ok(end) = rule::read_param(t, s, at + 1) else {
            return at + 1;
        };
        at = end;
    }
    at
}

// Where the first value starts that no comma follows; the first one starts at `from`.
fn value_from(t: &ClassTable, s: &[u8], from: usize) -> usize
    requires { Classes t.now }
    ensures { result ≡ value_from (suc (length s.now)) from s.now }
{
    let mut start = from;
    while start < s.len() {
        let Ok(end) = rule::read_value(t, s, start) else {
            return start;
        };
        if octet_at(s, end) != b',' {
            return start;
        }
        start = end + 1;
    }
    start
}

// The name from a place on; an empty one past the end.
fn word_from(t: &ClassTable, s: &[u8], is_param: bool, start: usize) -> AtFault
    requires { Classes t.now }
    ensures { result ≡ word_from is_param start s.now }
{
    if s.len() <= start {
        return AtFault {
            is_param,
            start,
            end: start,
        };
    }
    let end = classes::span(t, s, start, classes::NAME);
    AtFault {
        is_param,
        start,
        end,
    }
}

// The name of the property or the parameter at which a line breaks the line rule.
pub fn at_fault(s: &[u8]) -> AtFault
    ensures { result ≡ at_fault s.now }
{
    let t = classes::table();
    let name = word_from(&t, s, false, name_from(&t, s));
    if name.end <= name.start {
        return name;
    }
    if octet_at(s, name.end) != b';' {
        return name;
    }
    word_from(&t, s, true, param_from(&t, s, name.end))
}

// What is wrong with the quote marks of the parameter whose name ends at `name_end`.
pub fn quote_fault(s: &[u8], name_end: usize) -> QuoteFault
    ensures { result ≡ quote_fault name_end s.now }
{
    if s.len() <= name_end {
        return QuoteFault::InBare;
    }
    let t = classes::table();
    let start = value_from(&t, s, name_end + 1);
    if octet_at(s, start) != b'"' {
        return QuoteFault::InBare;
    }
    if classes::span(&t, s, start + 1, classes::QUOTED) < s.len() {
        return QuoteFault::Followed;
    }
    QuoteFault::LeftOpen
}
