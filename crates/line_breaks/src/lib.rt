// The ends of lines over the whole input: a lone CR or LF, and CR LF at the end.
#![tactic(auto)]

ghost use Rattle.std.specs.Prelude.{◌≡◌, true, false, ℕ, ◌+◌, ◌-◌, ◌<◌, ◌≤◌, eqb, length, drop};
ghost use Rattle.octets.specs.Ascii as ascii;
ghost use Rattle.octets.specs.Classes.{bit};
ghost use Rattle.line_breaks.specs.Lone.{lone_step, first_lone, differ, split_at, Joined, paired, ends_cr_lf};

// How many octets are passed at i: 2 at CR LF, 0 at any other CR or LF, else 1.
fn lone_step(s: &[u8], i: usize) -> usize
    requires { i < length s.now }
    ensures { result ≡ lone_step (drop i s.now) }
{
    if s[i] == b'\n' {
        return 0;
    }
    if s[i] != b'\r' {
        return 1;
    }
    if s.len() - i < 2 {
        return 0;
    }
    if s[i + 1] != b'\n' {
        return 0;
    }
    2
}

// Finds the first lone CR or LF, or the length, octet by octet.
fn find_lone(s: &[u8]) -> usize
    ensures { result ≡ first_lone s.now }
{
    let mut i: usize = 0;
    while i < s.len() {
        let n = lone_step(s, i);
        if n == 0 {
            return i;
        }
        i += n;
    }
    i
}

// 1 where only one of the two is half of a CR LF, else 0.
fn split_bit(a: u8, b: u8) -> u8
    ensures { result ≡ bit (differ (eqb a ascii.cr) (eqb b ascii.lf)) 1 }
{
    (a == b'\r') as u8 ^ (b == b'\n') as u8
}

// How many pairs of neighbours are tested at a time.
const BLOCK: usize = 16;

// How many octets have so many pairs.
const LEAST: usize = 17;

// False only where none of the sixteen pairs from i on is split.
fn is_split(s: &[u8], i: usize) -> bool
    requires { i + 17 ≤ length s.now }
    ensures { result ≡ false → (k : ℕ) → k < 16 → split_at s.now (i + k) ≡ false }
{
    let mut bad: u8 = 0;
    for k in 0..BLOCK {
        bad |= split_bit(s[i + k], s[i + k + 1]);
    }
    bad != 0
}

// True only where no pair is split, one at a time.
fn each_joined(s: &[u8]) -> bool
    requires { 0 < length s.now }
    ensures { result ≡ true → Joined s.now (length s.now - 1) }
{
    for i in 0..s.len() - 1 {
        if split_bit(s[i], s[i + 1]) != 0 {
            return false;
        }
    }
    true
}

// True only where no pair is split, by blocks, the last of which ends where the text ends.
fn all_joined(s: &[u8]) -> bool
    requires { 0 < length s.now }
    ensures { result ≡ true → Joined s.now (length s.now - 1) }
{
    if s.len() < LEAST {
        return each_joined(s);
    }
    let last = s.len() - LEAST;
    let mut i: usize = 0;
    while i < last {
        if is_split(s, i) {
            return false;
        }
        i += BLOCK;
    }
    !is_split(s, last)
}

// True only where LF stands exactly after each CR.
fn all_paired(s: &[u8]) -> bool
    ensures { result ≡ true → paired s.now ≡ true }
{
    if s.is_empty() {
        return true;
    }
    if s[0] == b'\n' {
        return false;
    }
    let last = s.len() - 1;
    if s[last] == b'\r' {
        return false;
    }
    all_joined(s)
}

// The first lone CR or LF, or the length.
pub fn first_lone(s: &[u8]) -> usize
    ensures { result ≡ first_lone s.now }
{
    if all_paired(s) {
        return s.len();
    }
    find_lone(s)
}

// Whether the last two octets are CR LF.
pub fn ends_cr_lf(s: &[u8]) -> bool
    ensures { result ≡ ends_cr_lf s.now }
{
    s.ends_with(b"\r\n")
}
