// The PID values of a line, and numbers up to 65,535 in digits. A larger number is read as 65,536.
#![tactic(auto)]

ghost use Rattle.std.specs.Prelude.{◌≡◌, suc, ◌+◌, ◌-◌, ◌≤◌, ◌<◌, length, take, drop};
ghost use Rattle.numbers.specs.Limits.{source_number};
ghost use Rattle.octets.specs.Classes.{Classes, run, digit};
ghost use Rattle.line_parser.specs.Parse.{hd};
ghost use Rattle.merge_pids.specs.Numbers.{with_digit, digits, pid_of};
ghost use Rattle.merge_pids.specs.Marks.{mark, marked, put_mark, put_all, value_marks, span_at, values_marks, named_marks, params_marks};

use numbers::limit;
use octets::classes;
use octets::classes::ClassTable;
use octets::slices::part;

// How many numbers a mark has: its line, the PID's first number and its source number.
pub const MARK: usize = 3;

// What a value of a PID parameter says: digits, a dot and digits.
#[derive(Clone, Copy, Debug, PartialEq, Eq)]
pub struct Pid {
    pub first: u32,
    pub source: u32,
}

// Where a value's octets stand, quote marks off, and where the value ends.
#[derive(Clone, Copy)]
struct Span {
    start: usize,
    end: usize,
    next: usize,
}

// The end of the run of digits from a place on.
pub fn digits_end(s: &[u8], from: usize) -> usize
    ensures { result ≡ from + run digit (drop from s.now) }
{
    from + part(s, from, s.len())
        .iter()
        .take_while(|b| b.is_ascii_digit())
        .count()
}

// What an octet adds as a digit.
fn ones(b: u8) -> usize
    ensures { result ≡ b - 48 }
{
    usize::from(b.saturating_sub(b'0'))
}

// A number with one digit more, 65,536 for any larger one.
fn append_digit(n: usize, b: u8) -> usize
    requires { n ≤ source_number + 1 }
    ensures value { result ≡ with_digit n b }
    ensures upper_bound { result ≤ source_number + 1 }
{
    (n * 10 + ones(b)).min(limit::SOURCE_NUMBER + 1)
}

// The number that digits stand for, 65,536 for any larger one.
pub fn read_number(s: &[u8]) -> u32
    ensures value { result ≡ digits 0 s.now }
    ensures upper_bound { result ≤ source_number + 1 }
{
    let mut n: usize = 0;
    for b in s {
        n = append_digit(n, *b);
    }
    n as u32
}

// The numbers of a PID value, quote marks off; None for anything else, which counts as no PID.
pub fn read_pid(s: &[u8]) -> Option<Pid>
    ensures { result ≡ pid_of s.now }
{
    let dot = digits_end(s, 0);
    if dot == 0 {
        return None;
    }
    if s.len() <= dot {
        return None;
    }
    if s[dot] != b'.' {
        return None;
    }
    let end = digits_end(s, dot + 1);
    if end == dot + 1 {
        return None;
    }
    if end < s.len() {
        return None;
    }
    Some(Pid {
        first: read_number(&s[..dot]),
        source: read_number(&s[dot + 1..]),
    })
}

// Writes a mark where there is room for it, and answers where the next one goes.
fn put_mark(line: u32, pid: Pid, out: &mut [u32], at: usize) -> usize
    ensures { marked result out.new ≡ put_mark (marked at out.old) (mark line pid.first pid.source) }
{
    if out.len() < MARK {
        return at;
    }
    if out.len() - MARK < at {
        return at;
    }
    out[at] = line;
    out[at + 1] = pid.first;
    out[at + 2] = pid.source;
    at + MARK
}

// The same for a value of a PID parameter, where it counts.
fn put_value(s: &[u8], line: u32, out: &mut [u32], at: usize) -> usize
    ensures { marked result out.new ≡ put_all (marked at out.old) (value_marks line (pid_of s.now)) }
{
    let Some(pid) = read_pid(s) else {
        return at;
    };
    put_mark(line, pid, out, at)
}

// The octet at a place; 0 past the end.
fn octet_at(s: &[u8], at: usize) -> u8
    ensures { result ≡ hd (drop at s.now) }
{
    s.get(at).copied().unwrap_or(0)
}

// Where the value at a place stands.
fn value_at(t: &ClassTable, s: &[u8], at: usize) -> Span
    requires classes { Classes t.now }
    requires at_in_bounds { at < length s.now }
    ensures value { result ≡ span_at at (drop at s.now) }
    ensures start_le_end { (result.start ≤ result.end) × (result.end ≤ length s.now) × (result.next ≤ length s.now + 1) }
{
    if s[at] != b'"' {
        let end = classes::span(t, s, at, classes::BARE);
        return Span {
            start: at,
            end,
            next: end,
        };
    }
    let end = classes::span(t, s, at + 1, classes::QUOTED);
    Span {
        start: at + 1,
        end,
        next: end + 1,
    }
}

// Writes the marks of the values of a PID parameter, the first of which starts at `from`.
fn put_values(t: &ClassTable, s: &[u8], from: usize, line: u32, out: &mut [u32], at: usize) -> usize
    requires { Classes t.now }
    ensures { marked result out.new ≡ put_all (marked at out.old) (values_marks line (suc (length (drop from s.now))) (drop from s.now)) }
{
    let mut place = from;
    let mut next = at;
    while place < s.len() {
        let v = value_at(t, s, place);
        let start = v.start;
        let end = v.end;
        next = put_value(&s[start..end], line, out, next);
        if octet_at(s, v.next) != b',' {
            return next;
        }
        place = v.next + 1;
    }
    next
}

// Writes the marks of a parameter whose name stands from `start` up to `name_end`: none where it is not PID.
fn put_named(
    t: &ClassTable,
    s: &[u8],
    start: usize,
    name_end: usize,
    line: u32,
    out: &mut [u32],
    at: usize,
) -> usize
    requires classes { Classes t.now }
    requires start_le_name_end { (start ≤ name_end) × (name_end ≤ length s.now) }
    ensures { marked result out.new ≡ put_all (marked at out.old) (named_marks line (take (name_end - start) (drop start s.now)) (drop (name_end + 1) s.now)) }
{
    if !octets::cases::same_name(&s[start..name_end], b"PID") {
        return at;
    }
    put_values(t, s, name_end + 1, line, out, at)
}

// Writes the marks of the parameters of a line, the first of which stands after the semicolon at `from`.
pub fn put_params(
    t: &ClassTable,
    s: &[u8],
    from: usize,
    line: u32,
    out: &mut [u32],
    at: usize,
) -> usize
    requires { Classes t.now }
    ensures { marked result out.new ≡ put_all (marked at out.old) (params_marks line (suc (length (drop from s.now))) (drop from s.now)) }
{
    let mut place = from;
    let mut next = at;
    while place < s.len() {
        if s[place] != b';' {
            return next;
        }
        let start = place + 1;
        let Ok(end) = line_parser::rule::read_param(t, s, start) else {
            return next;
        };
        let name_end = classes::span(t, s, start, classes::NAME);
        next = put_named(t, s, start, name_end, line, out, next);
        place = end;
    }
    next
}
