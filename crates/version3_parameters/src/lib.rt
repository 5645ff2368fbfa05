// The parameters of a line that is taken in from version 3 or given out to it: TYPE=pref and PREF=1.
#![tactic(auto)]

ghost use Rattle.std.specs.Prelude.{◌≡◌, false, ◌||◌, [], ◌∷◌, ℕ, ◌+◌, ◌-◌, ◌≤◌, length, take, drop};
ghost use Rattle.octets.specs.Ascii as ascii;
ghost use Rattle.octets.specs.Room.{overlay};
ghost use Rattle.octets.specs.Classes.{Classes};
ghost use Rattle.line_parser.specs.Parse.{got};
ghost use Rattle.line_parser.specs.Grammar.{Value};
ghost use Rattle.line_parser.specs.Rule.{value, param};
ghost use Rattle.card_line.specs.Parts.{Accepted};
ghost use Rattle.version3_parameters.specs.Params.{changed_all, any_prefers, mark, new_params, params_text, prefs_fit};
ghost use Rattle.version3_parameters.specs.Places.{Holds, ParamAt, piece, type_by, pref_by, named_by, lawful_by, text_by, prefers_by, params_of, one_written, Puts};

use octets::cases::same_name;
use octets::classes;
use octets::classes::ClassTable;

// Cards of version 3 are taken in as version 4, or cards of version 4 given out as version 3.
#[derive(Clone, Copy, Debug, PartialEq, Eq)]
pub enum Way {
    Inward,
    Outward,
}

// How many octets were written, and whether it was said that the line is preferred: each stands without the other.
#[derive(Clone, Copy, Debug, PartialEq, Eq)]
pub struct Put {
    pub length: usize,
    pub gone: bool,
}

// Where the octets of a value stand, quotes off, and where it ends with its quote marks.
#[derive(Clone, Copy, Debug, PartialEq, Eq)]
pub struct ValueSpan {
    pub start: usize,
    pub end: usize,
    pub next: usize,
}

// Writes an octet and s to the start of d, and answers how many octets that are.
fn put_after(lead: u8, s: &[u8], d: &mut [u8]) -> usize
    requires { length s.now + 1 ≤ length d.old }
    ensures { (result ≡ length s.now + 1) × (d.new ≡ overlay (lead ∷ s.now) d.old) }
{
    d[0] = lead;
    octets::copying::copy_in(&mut d[1..], s);
    s.len() + 1
}

// Where the value stands that starts at `at`.
fn value_at(t: &ClassTable, s: &[u8], at: usize) -> ValueSpan
    requires classes { Classes t.now }
    requires at_in_bounds { at ≤ length s.now }
    ensures { (v : Value) → (k : ℕ) → value (drop at s.now) ≡ got v k → Holds s.now at v result }
{
    if s.len() <= at {
        return ValueSpan {
            start: at,
            end: at,
            next: at,
        };
    }
    if s[at] != b'"' {
        let end = classes::span(t, s, at, classes::BARE);
        return ValueSpan {
            start: at,
            end,
            next: end,
        };
    }
    let start = at + 1;
    let end = classes::span(t, s, start, classes::QUOTED);
    ValueSpan {
        start,
        end,
        next: end + 1,
    }
}

// Writes one value of a parameter to the start of d: behind the name where it is the first that is written, else behind a comma.
fn put_value(first: bool, name: &[u8], value: &[u8], d: &mut [u8]) -> usize
    requires { length (piece first name.now value.now) ≤ length d.old }
    ensures { (result ≡ length (piece first name.now value.now)) × (d.new ≡ overlay (piece first name.now value.now) d.old) }
{
    if !first {
        return put_after(b',', value, d);
    }
    let n = put_after(b';', name, d);
    let m = put_after(b'=', value, &mut d[n..]);
    n + m
}

// Writes the TYPE parameter from `start` up to `end` without its values pref to the start of d; nothing where no value is left.
fn put_type(t: &ClassTable, s: &[u8], start: usize, end: usize, d: &mut [u8]) -> Put
    requires classes { Classes t.now }
    requires param_at { ParamAt s.now start end × (end ≤ length s.now) }
    requires s_in_bounds { length (type_by (param (drop start s.now))) ≤ length d.old }
    ensures { Puts (type_by (param (drop start s.now))) (pref_by (param (drop start s.now))) result d.old d.new }
{
    let name_end = classes::span(t, s, start, classes::NAME);
    let mut at = name_end + 1;
    let mut w: usize = 0;
    let mut gone = false;
    while at <= end {
        let v = value_at(t, s, at);
        let from = v.start;
        let to = v.end;
        let next = v.next;
        if same_name(&s[from..to], b"pref") {
            gone = true;
            at = next + 1;
        } else {
            w += put_value(w == 0, &s[start..name_end], &s[at..next], &mut d[w..]);
            at = next + 1;
        }
    }
    Put { length: w, gone }
}

// Whether the parameter whose name starts at `start` has that name, without case.
fn is_named(t: &ClassTable, s: &[u8], start: usize, end: usize, name: &[u8]) -> bool
    requires classes { Classes t.now }
    requires param_at { ParamAt s.now start end × (end ≤ length s.now) }
    ensures { result ≡ named_by name.now (param (drop start s.now)) }
{
    let name_end = classes::span(t, s, start, classes::NAME);
    same_name(&s[start..name_end], name)
}

// Writes the parameter from `start` up to `end` as it is to the start of d.
fn put_whole(s: &[u8], start: usize, end: usize, d: &mut [u8]) -> Put
    requires { (start ≤ end) × (end ≤ length s.now) × (end - start + 1 ≤ length d.old) }
    ensures { Puts (ascii.semicolon ∷ take (end - start) (drop start s.now)) false result d.old d.new }
{
    let length = put_after(b';', &s[start..end], d);
    Put {
        length,
        gone: false,
    }
}

// Writes what becomes of the parameter from `start` up to `end` to the start of d.
fn put_param(way: Way, t: &ClassTable, s: &[u8], start: usize, end: usize, d: &mut [u8]) -> Put
    requires classes { Classes t.now }
    requires param_at { ParamAt s.now start end × (end ≤ length s.now) }
    requires s_in_bounds { length (text_by way (param (drop start s.now))) ≤ length d.old }
    ensures { Puts (text_by way (param (drop start s.now))) (prefers_by way (param (drop start s.now))) result d.old d.new }
{
    match way {
        Way::Inward => {
            if is_named(t, s, start, end, b"TYPE") {
                return put_type(t, s, start, end, d);
            }
            put_whole(s, start, end, d)
        }
        Way::Outward => {
            if is_named(t, s, start, end, b"PREF") {
                return Put {
                    length: 0,
                    gone: true,
                };
            }
            put_whole(s, start, end, d)
        }
    }
}

// Writes what becomes of the parameters from `from`, the end of the line's name, to the start of d.
fn put_each(way: Way, t: &ClassTable, s: &[u8], from: usize, d: &mut [u8]) -> Put
    requires classes { Classes t.now }
    requires accepted { Accepted s.now from }
    requires s_in_bounds { length (params_text (changed_all way (params_of s.now))) ≤ length d.old }
    ensures { Puts (params_text (changed_all way (params_of s.now))) (any_prefers way (params_of s.now)) result d.old d.new }
{
    let mut at = from;
    let mut w: usize = 0;
    let mut gone = false;
    while at < s.len() {
        if s[at] != b';' {
            return Put { length: w, gone };
        }
        let start = at + 1;
        let Ok(end) = line_parser::rule::read_param(t, s, start) else {
            return Put { length: w, gone };
        };
        let put = put_param(way, t, s, start, end, &mut d[w..]);
        w += put.length;
        gone |= put.gone;
        at = end;
    }
    Put { length: w, gone }
}

// Writes the parameter by which the other version says that a line is preferred to the start of d.
fn put_mark(way: Way, d: &mut [u8]) -> usize
    requires { length (params_text (mark way ∷ [])) ≤ length d.old }
    ensures { (result ≡ length (params_text (mark way ∷ []))) × (d.new ≡ overlay (params_text (mark way ∷ [])) d.old) }
{
    match way {
        Way::Inward => {
            octets::copying::copy_in(d, b";PREF=1");
            7
        }
        Way::Outward => {
            octets::copying::copy_in(d, b";TYPE=pref");
            10
        }
    }
}

// Writes the parameters of a line whose name ends at `name_end` as the other version has them to the start of d, and answers how many octets
// that are.
pub fn put_params(way: Way, t: &ClassTable, s: &[u8], name_end: usize, d: &mut [u8]) -> usize
    requires classes { Classes t.now }
    requires accepted { Accepted s.now name_end }
    requires s_in_bounds { length (params_text (new_params way (params_of s.now))) ≤ length d.old }
    ensures { (result ≡ length (params_text (new_params way (params_of s.now)))) × (d.new ≡ overlay (params_text (new_params way (params_of s.now))) d.old) }
{
    let put = put_each(way, t, s, name_end, d);
    let w = put.length;
    if !put.gone {
        return w;
    }
    w + put_mark(way, &mut d[w..])
}

// The value 1 alone, and between quote marks.
const ONE: &[u8] = b"1";

const QUOTED_ONE: &[u8] = b"\"1\"";

// Whether the values of a PREF, as they are written, are 1 alone, quotes off.
fn is_one(values: &[u8]) -> bool
    ensures { result ≡ one_written values.now }
{
    values == ONE || values == QUOTED_ONE
}

// Whether a PREF from `start` up to `end` may stand in a line: in none, out one with the single value 1, quotes off.
fn is_lawful(way: Way, t: &ClassTable, s: &[u8], start: usize, end: usize) -> bool
    requires classes { Classes t.now }
    requires param_at { ParamAt s.now start end × (end ≤ length s.now) }
    ensures { result ≡ lawful_by way (param (drop start s.now)) }
{
    match way {
        Way::Inward => false,
        Way::Outward => {
            let values = classes::span(t, s, start, classes::NAME) + 1;
            is_one(&s[values..end])
        }
    }
}

// Whether the PREF parameters of a line whose name ends at `name_end` let it be taken in or given out.
pub fn do_prefs_fit(way: Way, t: &ClassTable, s: &[u8], name_end: usize) -> bool
    requires classes { Classes t.now }
    requires accepted { Accepted s.now name_end }
    ensures { result ≡ prefs_fit way (params_of s.now) }
{
    let mut at = name_end;
    let mut n: usize = 0;
    while at < s.len() {
        if s[at] != b';' {
            return n < 2;
        }
        let start = at + 1;
        let Ok(end) = line_parser::rule::read_param(t, s, start) else {
            return n < 2;
        };
        if is_named(t, s, start, end, b"PREF") {
            if !is_lawful(way, t, s, start, end) {
                return false;
            }
            n += 1;
            at = end;
        } else {
            at = end;
        }
    }
    n < 2
}
