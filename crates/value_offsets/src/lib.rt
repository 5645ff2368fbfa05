// The minutes that an offset from UTC stands for.
#![tactic(auto)]

ghost use Rattle.std.specs.Prelude.{◌≡◌, ◌≤◌};
ghost use Rattle.value_offsets.specs.Minutes.{digit_at, pair_at, time_of, is_behind, signed, most_minutes, Bounded, minutes_of};

use numbers::kind;
use numbers::refusal::Reason;
use property_table::Edition;
use value_kinds::Fault;

// The minutes that an offset is ahead of UTC, below 0 where it is behind; or the refusal, with its place in the value.
#[derive(Clone, Copy, Debug, PartialEq, Eq)]
pub enum Offset {
    Minutes(i32),
    Refused(u32, usize),
}

// The digit at i; 0 past the end.
fn digit_at(s: &[u8], i: usize) -> u32
    ensures value { result ≡ digit_at s.now i }
    ensures upper_bound { result ≤ 255 }
{
    if s.len() <= i {
        return 0;
    }
    let x = s[i];
    if x < b'0' {
        return 0;
    }
    (x - b'0') as u32
}

// The number that the two digits from i on make.
fn pair_at(s: &[u8], i: usize) -> u32
    requires { i ≤ 3 }
    ensures value { result ≡ pair_at s.now i }
    ensures upper_bound { result ≤ 2805 }
{
    let tens = digit_at(s, i);
    let ones = digit_at(s, i + 1);
    tens * 10 + ones
}

// How many minutes the hours and minutes after the sign are.
fn time_of(s: &[u8]) -> u32
    ensures value { result ≡ time_of s.now }
    ensures upper_bound { result ≤ most_minutes }
{
    let hours = pair_at(s, 1);
    let minutes = pair_at(s, 3);
    hours * 60 + minutes
}

// Whether the sign is a minus.
fn is_behind(s: &[u8]) -> bool
    ensures { result ≡ is_behind s.now }
{
    s.starts_with(b"-")
}

// A number of minutes, below 0 where it is behind.
fn signed(behind: bool, n: u32) -> i32
    requires { n ≤ most_minutes }
    ensures { result ≡ signed behind n }
{
    let z = n as i32;
    if behind {
        return -z;
    }
    z
}

// The minutes that the octets of an offset stand for, or the first octet from which no continuation makes them one; their length where
// they only end too early.
pub fn minutes(value: &[u8]) -> Offset
    ensures value { result ≡ minutes_of value.now }
    ensures bounded { Bounded result }
{
    let steps = value_automaton::scanner::table();
    let f = value_automaton::value_fault(&steps, Edition::First, kind::OFFSET, value);
    if let Fault::Breaks(octet) = f {
        return Offset::Refused(Reason::Value.number(), octet);
    }
    Offset::Minutes(signed(is_behind(value), time_of(value)))
}
