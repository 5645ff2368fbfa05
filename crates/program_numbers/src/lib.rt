// What digits stand for: a number in decimal ones, and octets as pairs of hexadecimal ones.
#![tactic(auto)]

pub mod decimal;
pub mod hex;

ghost use Rattle.std.specs.Prelude.{◌≡◌, true};

// Whether two texts have the same octets.
pub fn same(a: &[u8], b: &[u8]) -> bool
    ensures { (result ≡ true → a.now ≡ b.now) × (a.now ≡ b.now → result ≡ true) }
{
    a == b
}
