// The next backslash or semicolon, sixteen octets at a time.
ghost use Rattle.std.specs.Prelude.{◌≡◌, true, false, ℕ, ◌+◌, ◌<◌, ◌≤◌, length, drop, get_or};
ghost use Rattle.octets.specs.Classes.{run};
ghost use Rattle.version3_text.specs.Renewed.{unmarked};

// How many octets are looked at together.
const BLOCK: usize = 16;

// False only where none of the sixteen octets from i is a backslash or a semicolon.
fn has_mark(s: &[u8], i: usize) -> bool
    requires { i + 16 ≤ length s.now }
    ensures { result ≡ false → (k : ℕ) → k < 16 → unmarked (get_or s.now (i + k) 0) ≡ true }
{
    let mut hit: u8 = 0;
    for &b in &s[i..i + BLOCK] {
        hit = hit | (b == b'\\') as u8 | (b == b';') as u8;
    }
    hit != 0
}

// A place up to which no octet from `from` on is a backslash or a semicolon.
fn skip_to_mark(s: &[u8], from: usize) -> usize
    requires { from ≤ length s.now }
    ensures { (result ≤ length s.now) × (from + run unmarked (drop from s.now) ≡ result + run unmarked (drop result s.now)) }
{
    let mut i = from;
    while BLOCK <= s.len() - i {
        if has_mark(s, i) {
            return i;
        }
        i += BLOCK;
    }
    i
}

// The first backslash or semicolon from `from` on, or the end.
pub fn next_mark(s: &[u8], from: usize) -> usize
    requires { from ≤ length s.now }
    ensures { (result ≤ length s.now) × (result ≡ from + run unmarked (drop from s.now)) }
{
    let near = skip_to_mark(s, from);
    match s[near..].iter().position(|&b| b == b'\\' || b == b';') {
        Some(n) => near + n,
        None => s.len(),
    }
}
