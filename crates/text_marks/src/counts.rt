// Counting octets: one pass with no early exit, in 16 bits, so that it compiles to vector instructions.
ghost use Rattle.std.specs.Prelude.{◌≡◌, ℕ, ◌≤◌, ◌<◌, length};
ghost use Rattle.numbers.specs.Limits as limit;
ghost use Rattle.text_marks.specs.Marks.{backslash, marked};
ghost use Rattle.text_marks.specs.Tallies.{Tallies};
ghost use Rattle.octets.specs.Counts.{count};

// How many octets `mark` marks by 1; it gives 0 for any other.
pub fn count_by<F: Fn(u8) -> u8>(s: &[u8], mark: F) -> usize
    requires callable { F.IsAlwaysCallable mark }
    requires s_len_bound { length s.now ≤ limit.octets }
    requires bits { (b r : ℕ) → b < 256 → F.post mark b r → r ≤ 1 }
    ensures value { Tallies (F.post mark) s.now result }
    ensures bound { result ≤ length s.now }
{
    let mut n: u16 = 0;
    for b in s {
        n += mark(*b) as u16;
    }
    n as usize
}

// How many octets escaping changes.
pub fn marks(s: &[u8]) -> usize
    requires { length s.now ≤ limit.octets }
    ensures { (result ≡ count marked s.now) × (result ≤ length s.now) }
{
    count_by(s, |b| crate::held_bit(b, b';', b'\n'))
}

// How many octets are a backslash.
pub fn backslashes(s: &[u8]) -> usize
    requires { length s.now ≤ limit.octets }
    ensures { (result ≡ count backslash s.now) × (result ≤ length s.now) }
{
    count_by(s, |b| (b == b'\\') as u8)
}
