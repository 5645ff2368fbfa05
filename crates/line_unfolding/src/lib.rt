// A text without its folds: how long it is, and the text itself.
#![tactic(auto)]

ghost use Rattle.std.specs.Prelude.{◌≡◌, false, [], ◌∷◌, ◌++◌, ℕ, ◌+◌, ◌<◌, ◌≤◌};
ghost use Rattle.std.proofs.Math.ListN.{length, drop};
ghost use Rattle.numbers.specs.Limits as limit;
ghost use Rattle.octets.specs.Classes.{bit};
ghost use Rattle.line_folds.specs.Folds.{fold_at, unfolded};

use line_folds::hops::BLOCK;
use line_folds::spans::{FOLD_LENGTH, ONE_BY_ONE, fold_at};

// 1 where the three octets are a fold, else 0.
fn fold_bit(a: u8, b: u8, c: u8) -> u8
    ensures { result ≡ bit (fold_at (a ∷ b ∷ c ∷ [])) 1 }
{
    (a == b'\r') as u8 & ((b == b'\n') as u8 & ((c == b' ') as u8 | (c == b'\t') as u8))
}

// The length of s without its folds: they are counted with no early exit, so that it compiles to vector instructions.
pub fn unfolded_length(s: &[u8]) -> usize
    requires { length s.now ≤ limit.octets }
    ensures { result ≡ length (unfolded s.now) }
{
    if s.len() < FOLD_LENGTH {
        return s.len();
    }
    let last = s.len() - 2;
    let mut folds: u16 = 0;
    for i in 0..last {
        folds += fold_bit(s[i], s[i + 1], s[i + 2]) as u16;
    }
    s.len() - FOLD_LENGTH * folds as usize
}

// A place up to which no fold starts from `from` on, in a line: the next CR, or a place near the end.
fn skip_to_fold(s: &[u8], from: usize) -> usize
    requires { from ≤ length s.now }
    ensures { (from ≤ result) × (result ≤ length s.now) × ((k : ℕ) → from ≤ k → k < result → fold_at (drop k s.now) ≡ false) }
{
    let mut i = from;
    while BLOCK <= s.len() - i {
        if line_folds::hops::has_cr(s, i) {
            return line_folds::hops::next_cr(s, i);
        }
        i += BLOCK;
    }
    i
}

// False only where no fold starts at the sixteen places from i on: no LF has a space, or less, after it.
fn has_fold(s: &[u8], i: usize) -> bool
    requires { i + 18 ≤ length s.now }
    ensures { result ≡ false → (k : ℕ) → k < 16 → fold_at (drop (i + k) s.now) ≡ false }
{
    let mut hit: u8 = 0;
    for k in 0..BLOCK {
        hit |= (s[i + k + 1] == b'\n') as u8 & (s[i + k + 2] <= b' ') as u8;
    }
    hit != 0
}

// A place up to which no fold starts from `from` on, in a text of many lines: a CR near the next fold, or a place near the end.
fn skip_lines(s: &[u8], from: usize) -> usize
    requires { from ≤ length s.now }
    ensures { (from ≤ result) × (result ≤ length s.now) × ((k : ℕ) → from ≤ k → k < result → fold_at (drop k s.now) ≡ false) }
{
    let mut i = from;
    while BLOCK + FOLD_LENGTH <= s.len() - i {
        if has_fold(s, i) {
            return line_folds::hops::next_cr(s, i);
        }
        i += BLOCK;
    }
    i
}

// A place up to which no fold starts from `from` on, in a text of many lines or in one line, where every CR starts a fold.
fn skip(s: &[u8], from: usize, many: bool) -> usize
    requires { from ≤ length s.now }
    ensures { (from ≤ result) × (result ≤ length s.now) × ((k : ℕ) → from ≤ k → k < result → fold_at (drop k s.now) ≡ false) }
{
    if many {
        return skip_lines(s, from);
    }
    skip_to_fold(s, from)
}

// Writes s without its folds to the start of d, and answers how many octets that are. Four octets after a fold are written one by one,
// and those up to the next at once.
fn unfold_as(s: &[u8], d: &mut [u8], many: bool) -> usize
    requires { length (unfolded s.now) ≤ length d.old }
    ensures { (result ≡ length (unfolded s.now)) × (d.new ≡ unfolded s.now ++ drop result d.old) }
{
    let mut i: usize = 0;
    let mut j: usize = 0;
    let mut met: usize = 0;
    while i < s.len() {
        if s[i] == b'\r' {
            let fold = fold_at(s, i);
            if fold {
                i += FOLD_LENGTH;
                met = 0;
            } else {
                d[j] = b'\r';
                j += 1;
                i += 1;
            }
        } else if met < ONE_BY_ONE {
            d[j] = s[i];
            j += 1;
            i += 1;
            met += 1;
        } else {
            let e = skip(s, i + 1, many);
            octets::copying::copy_in(&mut d[j..], &s[i..e]);
            j += e - i;
            i = e;
            met = 0;
        }
    }
    j
}

// Writes the line s without its folds to the start of d, and answers how many octets that are.
pub fn unfold(s: &[u8], d: &mut [u8]) -> usize
    requires { length (unfolded s.now) ≤ length d.old }
    ensures { (result ≡ length (unfolded s.now)) × (d.new ≡ unfolded s.now ++ drop result d.old) }
{
    unfold_as(s, d, false)
}

// Writes the text s of many lines without its folds to the start of d, and answers how many octets that are.
pub fn unfold_text(s: &[u8], d: &mut [u8]) -> usize
    requires { length (unfolded s.now) ≤ length d.old }
    ensures { (result ≡ length (unfolded s.now)) × (d.new ≡ unfolded s.now ++ drop result d.old) }
{
    unfold_as(s, d, true)
}
