// RFC 3629: how long a character is.
#![tactic(auto)]

ghost use Rattle.std.specs.Prelude.{◌≡◌, ◌<◌, length, drop};
ghost use Rattle.octets.specs.Classes.{within};
ghost use Rattle.utf8.specs.Characters.{length_by, second, tail, char_length};

// How many octets a character has that starts with b.
pub fn length_by(b: u8) -> usize
    ensures { result ≡ length_by b }
{
    match b {
        0x00..=0x7f => 1,
        0xc2..=0xdf => 2,
        0xe0..=0xef => 3,
        0xf0..=0xf4 => 4,
        _ => 0,
    }
}

// Whether an octet is from low to high.
pub fn in_range(low: u8, high: u8, c: u8) -> bool
    ensures { result ≡ within low high c }
{
    (low..=high).contains(&c)
}

// Whether c may stand second after b, which starts a character of two or more octets.
pub fn is_second(b: u8, c: u8) -> bool
    ensures { result ≡ second b c }
{
    match b {
        0xe0 => in_range(0xa0, 0xbf, c),
        0xed => in_range(0x80, 0x9f, c),
        0xf0 => in_range(0x90, 0xbf, c),
        0xf4 => in_range(0x80, 0x8f, c),
        _ => in_range(0x80, 0xbf, c),
    }
}

// Whether c may stand third or fourth in a character.
pub fn is_tail(c: u8) -> bool
    ensures { result ≡ tail c }
{
    in_range(0x80, 0xbf, c)
}

// The length of the character at i, or 0.
pub fn char_length(s: &[u8], i: usize) -> usize
    requires { i < length s.now }
    ensures { result ≡ char_length (drop i s.now) }
{
    let b = s[i];
    let n = length_by(b);
    let whole = n <= s.len() - i
        && (n < 2 || is_second(b, s[i + 1]))
        && (n < 3 || is_tail(s[i + 2]))
        && (n < 4 || is_tail(s[i + 3]));
    if whole { n } else { 0 }
}
