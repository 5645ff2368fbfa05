// The kinds of value are regular expressions; here are tests of each octet by itself that settle most values.
#![tactic(auto)]

ghost use Rattle.std.specs.Prelude.{◌≡◌, not};
ghost use Rattle.octets.specs.Classes.{bit};
ghost use Rattle.octets.specs.Counts.{all_in, count};
ghost use Rattle.value_kinds.specs.Octets.{neither, graphic, semicolon, holds};
ghost use Rattle.value_kinds.specs.Kinds.{most_of_name, most_of_address};
ghost use Rattle.value_kinds.specs.AtOnce.{lacking, divided, fits_at_once};

pub mod pairs;

use numbers::kind;
use property_table::Edition;

// A value fits, or the first octet from which nothing could, or the end.
#[derive(Clone, Copy, Debug, PartialEq, Eq)]
pub enum Fault {
    Fits,
    Breaks(usize),
}

// 1 for the octets a and b, else 0.
fn mark_bit(a: u8, b: u8, x: u8) -> u8
    ensures { result ≡ bit (not (neither a b x)) 1 }
{
    (x == a) as u8 | (x == b) as u8
}

// Whether no octet of s is a or b: no way out of the loop, so that it is compiled to vectors.
fn lacks(a: u8, b: u8, s: &[u8]) -> bool
    ensures { result ≡ lacking a b s.now }
{
    let mut marks: u8 = 0;
    for &x in s {
        marks |= mark_bit(a, b, x);
    }
    marks == 0
}

// 0 for an octet 21-7E, else 1.
fn hidden_bit(x: u8) -> u8
    ensures { result ≡ bit (not (holds graphic x)) 1 }
{
    (x < b'!') as u8 | (b'~' < x) as u8
}

// Whether all octets of s are 21-7E.
pub fn is_printing(s: &[u8]) -> bool
    ensures { result ≡ all_in (holds graphic) s.now }
{
    let mut hidden: u8 = 0;
    for &x in s {
        hidden |= hidden_bit(x);
    }
    hidden == 0
}

// How many semicolons s has.
fn count_semicolons(s: &[u8]) -> usize
    ensures { result ≡ count (holds semicolon) s.now }
{
    let mut n: usize = 0;
    for &x in s {
        n += (x == b';') as usize;
    }
    n
}

// Whether s has so many semicolons or more, but fewer than `most`, and no backslash.
fn has_semicolons(s: &[u8], least: usize, most: usize) -> bool
    ensures { result ≡ divided least most s.now }
{
    let n = count_semicolons(s);
    if n < least {
        return false;
    }
    if most <= n {
        return false;
    }
    lacks(b'\\', b'\\', s)
}

// The most components of N.
fn most_of_name(edition: Edition) -> usize
    ensures { result ≡ most_of_name edition }
{
    match edition {
        Edition::First => 5,
        Edition::Second => 7,
    }
}

// The most components of ADR.
fn most_of_address(edition: Edition) -> usize
    ensures { result ≡ most_of_address edition }
{
    match edition {
        Edition::First => 7,
        Edition::Second => 18,
    }
}

// Whether a look at each octet by itself shows that s fits; no such look settles kinds 3 and 7 to 11.
pub fn fits_at_once(edition: Edition, kind: usize, s: &[u8]) -> bool
    ensures { result ≡ fits_at_once edition kind s.now }
{
    match kind {
        kind::ANYTHING => true,
        kind::TEXT => lacks(b'\\', b',', s),
        kind::TEXTS => lacks(b'\\', b'\\', s),
        kind::NAME => has_semicolons(s, 4, most_of_name(edition)),
        kind::ADDRESS => has_semicolons(s, 6, most_of_address(edition)),
        kind::ORGANIZATION => lacks(b'\\', b',', s),
        _ => false,
    }
}
