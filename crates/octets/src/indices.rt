// Octets and numbers as indices.
ghost use Rattle.std.specs.Prelude.{◌≡◌, ◌<◌};
ghost use Rattle.numbers.specs.Limits as limit;

// An octet as an index.
pub fn wide(x: u8) -> usize
    ensures { result ≡ x }
{
    x as usize
}

// A number of 32 bits as an index.
pub fn wide_number(n: u32) -> usize
    ensures { (result ≡ n) × (result < limit.word) }
{
    n as usize
}
