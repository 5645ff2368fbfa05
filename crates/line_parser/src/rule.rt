// The line rule: one unfolded logical line taken apart. The table of classes is lent, and positions are offsets in the line.
ghost use Rattle.std.specs.Prelude.{◌≡◌, suc, ◌≤◌, length, drop};
ghost use Rattle.numbers.specs.Refusals.{number};
ghost use Rattle.octets.specs.Classes.{Classes};
ghost use Rattle.line_parser.specs.Rule.{word, value, values, param, params, head, parse_line};
ghost use Rattle.line_parser.specs.Places.{place, listed, headed, outcome, upto, named, counted, parsed};

use numbers::refusal::Reason;
use octets::classes;
use octets::classes::ClassTable;

// A group and a name: how long the group is, 0 for none, and where the name ends.
#[derive(Clone, Copy, Debug, PartialEq, Eq)]
pub struct Named {
    pub group_length: usize,
    pub name_end: usize,
}

// Parameters: how many, and where they end.
#[derive(Clone, Copy, Debug, PartialEq, Eq)]
pub struct Listed {
    pub param_count: usize,
    pub end: usize,
}

// A whole line: how long its group is, where its name ends, how many parameters it has, and where its value starts.
#[derive(Clone, Copy, Debug, PartialEq, Eq)]
pub struct Parsed {
    pub group_length: usize,
    pub name_end: usize,
    pub param_count: usize,
    pub value_start: usize,
}

// Reads one or more letters, digits or hyphens.
fn read_word(t: &ClassTable, s: &[u8], at: usize, fault: Reason) -> Result<usize, Reason>
    requires classes { Classes t.now }
    requires at_in_bounds { at ≤ length s.now }
    ensures { upto result ≡ place at (word (number fault) (drop at s.now)) }
{
    let end = classes::span(t, s, at, classes::NAME);
    if end == at {
        return Err(fault);
    }
    Ok(end)
}

// Reads a quoted value with its quote marks, or a bare one, which may be empty.
pub(crate) fn read_value(t: &ClassTable, s: &[u8], at: usize) -> Result<usize, Reason>
    requires classes { Classes t.now }
    requires at_in_bounds { at ≤ length s.now }
    ensures { upto result ≡ place at (value (drop at s.now)) }
{
    if s.len() <= at {
        return Ok(at);
    }
    if s[at] != b'"' {
        let end = classes::span(t, s, at, classes::BARE);
        return Ok(end);
    }
    let end = classes::span(t, s, at + 1, classes::QUOTED);
    if s.len() <= end {
        return Err(Reason::Quote);
    }
    if s[end] != b'"' {
        return Err(Reason::Quote);
    }
    Ok(end + 1)
}

// Reads one or more values split by commas, up to a `;` or a `:`.
fn read_values(t: &ClassTable, s: &[u8], from: usize) -> Result<usize, Reason>
    requires classes { Classes t.now }
    requires from_in_bounds { from ≤ length s.now }
    ensures { upto result ≡ place from (values (drop from s.now)) }
{
    let mut at = read_value(t, s, from)?;
    while at < s.len() {
        let b = s[at];
        if b != b',' {
            if b == b';' {
                return Ok(at);
            }
            if b == b':' {
                return Ok(at);
            }
            return Err(Reason::Quote);
        }
        at = read_value(t, s, at + 1)?;
    }
    Err(Reason::NoColon)
}

// Reads a parameter: a name, `=` and the values.
pub fn read_param(t: &ClassTable, s: &[u8], at: usize) -> Result<usize, Reason>
    requires classes { Classes t.now }
    requires at_in_bounds { at ≤ length s.now }
    ensures { upto result ≡ place at (param (drop at s.now)) }
{
    let name_end = read_word(t, s, at, Reason::Parameter)?;
    if s.len() <= name_end {
        return Err(Reason::Parameter);
    }
    if s[name_end] != b'=' {
        return Err(Reason::Parameter);
    }
    read_values(t, s, name_end + 1)
}

// Reads any number of parameters, each after a semicolon, up to a colon.
fn read_params(t: &ClassTable, s: &[u8], from: usize) -> Result<Listed, Reason>
    requires { Classes t.now }
    ensures { counted result ≡ listed 0 from (params (suc (length (drop from s.now))) (drop from s.now)) }
{
    let mut at = from;
    let mut count: usize = 0;
    while at < s.len() {
        let b = s[at];
        if b != b';' {
            if b == b':' {
                return Ok(Listed {
                    param_count: count,
                    end: at,
                });
            }
            return Err(Reason::Name);
        }
        at = read_param(t, s, at + 1)?;
        count += 1;
    }
    Err(Reason::NoColon)
}

// Reads the group and its dot, if there is one, and the name.
pub fn read_head(t: &ClassTable, s: &[u8]) -> Result<Named, Reason>
    requires { Classes t.now }
    ensures { named result ≡ headed (head s.now) }
{
    let end = read_word(t, s, 0, Reason::Name)?;
    if s.len() <= end {
        return Ok(Named {
            group_length: 0,
            name_end: end,
        });
    }
    if s[end] != b'.' {
        return Ok(Named {
            group_length: 0,
            name_end: end,
        });
    }
    let name_end = read_word(t, s, end + 1, Reason::Name)?;
    Ok(Named {
        group_length: end,
        name_end,
    })
}

// Reads a whole line.
pub fn read_line(t: &ClassTable, s: &[u8]) -> Result<Parsed, Reason>
    requires { Classes t.now }
    ensures { parsed result ≡ outcome (parse_line s.now) }
{
    let head = read_head(t, s)?;
    let params = read_params(t, s, head.name_end)?;
    Ok(Parsed {
        group_length: head.group_length,
        name_end: head.name_end,
        param_count: params.param_count,
        value_start: params.end + 1,
    })
}
