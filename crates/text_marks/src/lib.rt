// What is seen in a text: whether an octet is not plain, or is a backslash, a comma or one of two octets more; counts and pairs.
#![tactic(auto)]

pub mod counts;
pub mod pairs;

ghost use Rattle.std.specs.Prelude.{◌≡◌, [], ◌∷◌, ◌≤◌, length};
ghost use Rattle.octets.specs.Classes.{bit};
ghost use Rattle.text_marks.specs.Seen.{held, seen, Sees};

// 1 for a backslash, a comma or one of the two octets, 0 for any other.
pub fn held_bit(b: u8, x: u8, y: u8) -> u8
    ensures { result ≡ bit (held x y b) 1 }
{
    ((b == b'\\') as u8 | (b == b',') as u8) | ((b == x) as u8 | (b == y) as u8)
}

// What is seen of one octet.
fn see_octet(b: u8, x: u8, y: u8) -> u8
    ensures { result ≡ seen x y (b ∷ []) }
{
    utf8_screening::plain::odd_bit(b) + 2 * held_bit(b, x, y)
}

// What `look` sees, octet by octet with no early exit, so that it compiles to vector instructions.
fn see_each<F: Fn(u8) -> u8>(s: &[u8], look: &F) -> u8
    requires { F.IsAlwaysCallable look.now }
    ensures { Sees (F.post look.now) s.now result }
{
    let mut bits: u8 = 0;
    for b in s {
        bits |= look(*b);
    }
    bits
}

// What `look` sees in the octets before `end` and in those from `from` on, which are all of them.
fn see_parts<F: Fn(u8) -> u8>(s: &[u8], end: usize, from: usize, look: &F) -> u8
    requires callable { F.IsAlwaysCallable look.now }
    requires from_le_end { from ≤ end }
    requires end_in_bounds { end ≤ length s.now }
    ensures { Sees (F.post look.now) s.now result }
{
    see_each(&s[..end], look) | see_each(&s[from..], look)
}

// What `look` sees in a text, where it sees 1, 2, 3 or 0 of an octet: 1 where it sees 1 of one, 2 where it sees 2 of one, 3 where both, else
// 0. The two parts have lengths that the compiler knows, or a multiple of 32, and may overlap, so that no octet is left over from its vectors.
pub fn see_by<F: Fn(u8) -> u8>(s: &[u8], look: F) -> u8
    requires { F.IsAlwaysCallable look }
    ensures { Sees (F.post look) s.now result }
{
    let n = s.len();
    match n {
        0..=3 => see_each(s, &look),
        4..=7 => see_parts(s, 4, n - 4, &look),
        8..=15 => see_parts(s, 8, n - 8, &look),
        16..=31 => see_parts(s, 16, n - 16, &look),
        _ => see_parts(s, n / 32 * 32, n - 32, &look),
    }
}

// What is seen: 1 where an octet is not plain, 2 where one is a backslash, a comma, x or y, 3 where both, else 0.
pub fn see(s: &[u8], x: u8, y: u8) -> u8
    ensures { result ≡ seen x y s.now }
{
    see_by(s, |b| see_octet(b, x, y))
}
