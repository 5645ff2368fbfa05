// Plain text: looks of sixteen and of eight octets with no way out, so that they compile to vector instructions.
ghost use Rattle.std.specs.Prelude.{◌≡◌, ◌+◌, ◌<◌, ◌≤◌, length, take, drop};
ghost use Rattle.octets.specs.Classes.{bit};
ghost use Rattle.utf8_screening.specs.Plain.{odd, all_plain, block};

// How many octets are looked at together.
pub const BLOCK: usize = 16;

// How many octets of a text shorter than a block are looked at together.
const HALF: usize = 8;

// 1 for an octet that is neither a tab nor one of 20-7E, 0 for any other.
pub fn odd_bit(b: u8) -> u8
    ensures { result ≡ bit (odd b) 1 }
{
    (b'~' < b) as u8 | ((b < b' ') as u8 & (b != b'\t') as u8)
}

// Whether the N octets from i on are plain.
fn is_plain_part<const N: usize>(s: &[u8], i: usize) -> bool
    requires { i + N ≤ length s.now }
    ensures { result ≡ all_plain (take N (drop i s.now)) }
{
    let mut bad: u8 = 0;
    for b in &s[i..i + N] {
        bad |= odd_bit(*b);
    }
    bad == 0
}

// Whether the block from i on is plain.
pub fn is_plain_block(s: &[u8], i: usize) -> bool
    requires { i + block ≤ length s.now }
    ensures { result ≡ all_plain (take block (drop i s.now)) }
{
    is_plain_part::<BLOCK>(s, i)
}

// Whether every octet is plain, one at a time.
fn each_plain(s: &[u8]) -> bool
    ensures { result ≡ all_plain s.now }
{
    s.iter().all(|b| odd_bit(*b) == 0)
}

// Whether every octet of a text shorter than a block is plain.
fn short_plain(s: &[u8]) -> bool
    requires { length s.now < block }
    ensures { result ≡ all_plain s.now }
{
    if s.len() < HALF {
        return each_plain(s);
    }
    is_plain_part::<HALF>(s, 0) && is_plain_part::<HALF>(s, s.len() - HALF)
}

// Whether every octet is a tab or one of 20-7E, by blocks, the last of which ends where the text ends.
pub fn all_plain(s: &[u8]) -> bool
    ensures { result ≡ all_plain s.now }
{
    if s.len() < BLOCK {
        return short_plain(s);
    }
    let last = s.len() - BLOCK;
    let mut i: usize = 0;
    while i < last {
        if !is_plain_block(s, i) {
            return false;
        }
        i += BLOCK;
    }
    is_plain_block(s, last)
}
