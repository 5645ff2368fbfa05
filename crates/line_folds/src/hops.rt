// The next CR, sixteen octets at a time.
ghost use Rattle.std.specs.Prelude.{◌≡◌, false, ℕ, ◌+◌, ◌<◌, ◌≤◌, length, drop, get_or};
ghost use Rattle.octets.specs.Ascii as ascii;
ghost use Rattle.octets.specs.Classes.{run};
ghost use Rattle.line_folds.specs.Folds.{not_cr};

// How many octets are tested at a time.
pub const BLOCK: usize = 16;

// False only where none of the sixteen octets from i is CR.
pub fn has_cr(s: &[u8], i: usize) -> bool
    requires { i + 16 ≤ length s.now }
    ensures { result ≡ false → (k : ℕ) → k < 16 → get_or s.now (i + k) 0 ≡ ascii.cr → ⊥ }
{
    let mut hit: u8 = 0;
    for k in 0..BLOCK {
        hit |= (s[i + k] == b'\r') as u8;
    }
    hit != 0
}

// A place up to which no octet from `from` on is CR.
fn skip_to_cr(s: &[u8], from: usize) -> usize
    requires { from ≤ length s.now }
    ensures { (result ≤ length s.now) × (from + run not_cr (drop from s.now) ≡ result + run not_cr (drop result s.now)) }
{
    let mut i = from;
    while BLOCK <= s.len() - i {
        if has_cr(s, i) {
            return i;
        }
        i += BLOCK;
    }
    i
}

// The first CR from `from` on, or the end.
pub fn next_cr(s: &[u8], from: usize) -> usize
    requires { from ≤ length s.now }
    ensures { (result ≤ length s.now) × (result ≡ from + run not_cr (drop from s.now)) }
{
    for i in skip_to_cr(s, from)..s.len() {
        if s[i] == b'\r' {
            return i;
        }
    }
    s.len()
}
