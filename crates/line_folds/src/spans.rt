// Where a logical line ends: folds, CR LF with a space or a tab after it, are passed.
ghost use Rattle.std.specs.Prelude.{◌≡◌, ◌+◌, ◌<◌, ◌≤◌, length, drop};
ghost use Rattle.octets.specs.Classes.{run};
ghost use Rattle.line_folds.specs.Folds.{fold_at, not_cr, line_length};

// The octets of a fold: CR, LF, and a space or a tab.
pub const FOLD_LENGTH: usize = 3;

// How many octets after a fold are passed one by one.
pub const ONE_BY_ONE: usize = 4;

// A logical line: its first CR, and its end; they differ where it has a fold.
#[derive(Clone, Copy, Debug, PartialEq, Eq)]
pub struct Span {
    pub cr: usize,
    pub end: usize,
}

// True where a fold starts at i.
pub fn fold_at(s: &[u8], i: usize) -> bool
    requires { i < length s.now }
    ensures { result ≡ fold_at (drop i s.now) }
{
    if s[i] != b'\r' {
        return false;
    }
    if s.len() - i < FOLD_LENGTH {
        return false;
    }
    if s[i + 1] != b'\n' {
        return false;
    }
    if s[i + 2] == b' ' {
        return true;
    }
    s[i + 2] == b'\t'
}

// The end of the logical line that starts at `from`: its last CR, or the end. Four octets after a fold are passed one by one, and the
// rest up to the next CR at once.
pub fn line_end(s: &[u8], from: usize) -> usize
    requires { from ≤ length s.now }
    ensures { (result ≡ from + line_length (drop from s.now)) × (result ≤ length s.now) }
{
    let mut at = from;
    let mut met: usize = 0;
    while at < s.len() {
        if s[at] == b'\r' {
            let fold = fold_at(s, at);
            if !fold {
                return at;
            }
            at += FOLD_LENGTH;
            met = 0;
        } else if met < ONE_BY_ONE {
            at += 1;
            met += 1;
        } else {
            at = crate::hops::next_cr(s, at + 1);
            met = 0;
        }
    }
    at
}

// The logical line that starts at `at`.
pub fn line_at(s: &[u8], at: usize) -> Span
    requires { at ≤ length s.now }
    ensures { (result.cr ≡ at + run not_cr (drop at s.now)) × (result.end ≡ at + line_length (drop at s.now)) × (result.end ≤ length s.now) }
{
    let cr = crate::hops::next_cr(s, at);
    Span {
        cr: cr,
        end: line_end(s, cr),
    }
}
