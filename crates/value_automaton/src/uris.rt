// A look at URIs that settles those whose scheme has letters alone.
ghost use Rattle.std.specs.Prelude.{◌≡◌, true, ℕ, ◌<◌, ◌≤◌, length, get_or};
ghost use Rattle.value_kinds.specs.Octets.{letter, holds};
ghost use Rattle.value_kinds.specs.Shapes.{Matches};
ghost use Rattle.value_kinds.specs.Kinds.{uri};

// True only for an ASCII letter.
fn is_letter(b: u8) -> bool
    ensures { result ≡ true → holds letter b ≡ true }
{
    b.is_ascii_alphabetic()
}

// A place up to which all octets are letters.
fn scheme_end(s: &[u8]) -> usize
    ensures { (result ≤ length s.now) × ((k : ℕ) → k < result → holds letter (get_or s.now k 0) ≡ true) }
{
    match s.iter().position(|&b| !is_letter(b)) {
        Some(n) => n,
        None => s.len(),
    }
}

// True only where s is a URI.
pub fn is_uri(s: &[u8]) -> bool
    ensures { result ≡ true → Matches uri s.now }
{
    let e = scheme_end(s);
    if e == 0 {
        return false;
    }
    if e == s.len() {
        return false;
    }
    if s[e] != b':' {
        return false;
    }
    let a = e + 1;
    value_kinds::is_printing(&s[a..])
}
