// Numbers in two octets and in four, the highest octet first.
ghost use Rattle.std.specs.Prelude.{◌≡◌, ◌+◌, ◌%◌, ◌<◌, ◌≤◌, length};
ghost use Rattle.std.proofs.lemmas.List.Edits.{sets};
ghost use Rattle.replay_script.specs.Numerals.{two_at, four_at, four_octets};

// Widens an octet to a number.
fn number(b: u8) -> u32
    ensures { (result ≡ b) × (result < 256) }
{
    b as u32
}

// Reads the number in two octets at a position.
pub fn read_two(s: &[u8], at: usize) -> u32
    requires { at + 2 ≤ length s.now }
    ensures { (result ≡ two_at s.now at) × (result < 65536) }
{
    number(s[at]) * 256 + number(s[at + 1])
}

// Reads the number in four octets at a position.
pub fn read_four(s: &[u8], at: usize) -> u32
    requires { at + 4 ≤ length s.now }
    ensures { result ≡ four_at s.now at }
{
    read_two(s, at) * 65536 + read_two(s, at + 2)
}

// Takes the lowest octet of a number.
fn low(n: usize) -> u8
    ensures { result ≡ n % 256 }
{
    (n % 256) as u8
}

// Writes a number in four octets at a position.
pub fn put_four(d: &mut [u8], at: usize, n: usize)
    requires { at + 4 ≤ length d.old }
    ensures { d.new ≡ sets d.old at (four_octets n) }
{
    let high = n / 65536;
    d[at] = low(high / 256);
    d[at + 1] = low(high);
    d[at + 2] = low(n / 256);
    d[at + 3] = low(n);
}
