// Parts of slices that are taken where they lie in the slice, and are empty elsewhere.
ghost use Rattle.std.specs.Prelude.{◌≡◌, ◌≤◌, min};
ghost use Rattle.octets.specs.Slices.{part};

// The smaller of two numbers.
pub fn least(a: usize, b: usize) -> usize
    ensures upper_bound { (result ≤ a) × (result ≤ b) }
    ensures value { result ≡ min a b }
{
    a.min(b)
}

// The octets from a up to e, or none where there is no such part.
pub fn part(s: &[u8], a: usize, e: usize) -> &[u8]
    ensures { result.now ≡ part s.now a e }
{
    if e > s.len() {
        return &s[..0];
    }
    if a > e {
        return &s[..0];
    }
    &s[a..e]
}

// The first n numbers, or none where there are fewer.
pub fn numbers(s: &[u32], n: usize) -> &[u32]
    ensures { result.now ≡ part s.now 0 n }
{
    if n > s.len() {
        return &s[..0];
    }
    &s[0..n]
}
