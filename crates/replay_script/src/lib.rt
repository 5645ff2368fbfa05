// The calls of a script, counted and measured.
#![tactic(auto)]

pub mod call;
pub mod numerals;

ghost use Rattle.std.specs.Prelude.{◌≡◌, ◌≤◌, length};
ghost use Rattle.replay_script.specs.Scripts.{width, call_of, decode};
ghost use Rattle.replay_script.specs.Counts.{shows, counted};

use numbers::refusal::{Reason, Refusal};

// How many calls a script has, and how many of them are shows.
#[derive(Clone, Copy, Debug, PartialEq, Eq)]
pub struct Counted {
    pub calls: usize,
    pub shows: usize,
}

// Measures the call at the start of s in octets: 0 where it is unknown or cut off. It stays a number, which `scan width` of the theorems adds up; and
// `replay::run_all` measures only whole calls, so that an Option would give it an arm that never runs.
pub fn width(s: &[u8]) -> usize
    ensures { result ≡ width s.now }
{
    let n = s.len();
    if n < call::LENGTH {
        return 0;
    }
    let b = s[0];
    if b < call::OPEN {
        return 0;
    }
    if call::RELEASE < b {
        return 0;
    }
    if b == call::OPEN {
        if n < call::OPENING {
            return 0;
        }
        return call::OPENING;
    }
    if b != call::ADD {
        return call::LENGTH;
    }
    if n < call::CHUNK {
        return 0;
    }
    let w = call::CHUNK + numerals::read_two(s, call::OPENING) as usize;
    if n < w {
        return 0;
    }
    w
}

// Counts a call that is a show as 1, and any other as 0.
fn count_show(s: &[u8]) -> usize
    requires { 1 ≤ length s.now }
    ensures { result ≡ shows (call_of s.now) }
{
    if s[0] == call::SHOW {
        return 1;
    }
    0
}

// Counts the calls of a script and the shows among them, or refuses with 90 at its first broken call.
pub fn count(script: &[u8]) -> Result<Counted, Refusal>
    ensures { result ≡ counted (decode script.now) }
{
    let mut at: usize = 0;
    let mut calls: usize = 0;
    let mut shows: usize = 0;
    while at < script.len() {
        let w = width(&script[at..]);
        if w == 0 {
            return Err(Refusal(Reason::ReplayCall, at));
        }
        shows += count_show(&script[at..]);
        calls += 1;
        at += w;
    }
    Ok(Counted { calls, shows })
}
