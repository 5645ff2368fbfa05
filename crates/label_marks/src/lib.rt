// What is seen in a value or a label: whether an octet may be bad, and whether one is a mark; how many marks there are; and the first bad
// octet of a label.
#![tactic(auto)]

pub mod units;

ghost use Rattle.std.specs.Prelude.{◌≡◌, [], ◌∷◌, ◌≤◌, length};
ghost use Rattle.numbers.specs.Limits as limit;
ghost use Rattle.octets.specs.Classes.{bit};
ghost use Rattle.octets.specs.Counts.{count};
ghost use Rattle.label_marks.specs.Seen.{mark, amiss, seen};

// 1 for a caret, x or y, 0 for any other octet.
fn mark_bit(b: u8, x: u8, y: u8) -> u8
    ensures { result ≡ bit (mark x y b) 1 }
{
    (b == b'^') as u8 | ((b == x) as u8 | (b == y) as u8)
}

// 1 for an octet that is neither plain nor x, or that is z; 0 for any other.
fn amiss_bit(b: u8, x: u8, z: u8) -> u8
    ensures { result ≡ bit (amiss x z b) 1 }
{
    (utf8_screening::plain::odd_bit(b) & (b != x) as u8) | (b == z) as u8
}

// What is seen of one octet.
fn see_octet(b: u8, x: u8, y: u8, z: u8) -> u8
    ensures { result ≡ seen x y z (b ∷ []) }
{
    amiss_bit(b, x, z) + 2 * mark_bit(b, x, y)
}

// What is seen: 1 where an octet is neither plain nor x, or is z; 2 where one is a caret, x or y; 3 where both; else 0.
pub fn see(s: &[u8], x: u8, y: u8, z: u8) -> u8
    ensures { result ≡ seen x y z s.now }
{
    text_marks::see_by(s, |b| see_octet(b, x, y, z))
}

// How many octets are a caret, x or y.
pub fn count_marks(s: &[u8], x: u8, y: u8) -> usize
    requires { length s.now ≤ limit.octets }
    ensures { (result ≡ count (mark x y) s.now) × (result ≤ length s.now) }
{
    text_marks::counts::count_by(s, |b| mark_bit(b, x, y))
}
