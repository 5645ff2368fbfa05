// Octets as pairs of hexadecimal digits, or `-` for none.
ghost use Rattle.std.specs.Prelude.{◌≡◌, true, ◌/◌, ◌≤◌, length};
ghost use Rattle.octets.specs.Room.{overlay};
ghost use Rattle.octets.specs.Counts.{all_in};
ghost use Rattle.program_numbers.specs.Hex.{digit_of, hexed, paired, decoded, taken, octets_of};

// How far a digit that is a capital or a small letter stands above its value.
const CAPITALS: u8 = b'A' - 10;

const LETTERS: u8 = b'a' - 10;

// What a digit of either case stands for.
#[tactic(auto, unfolding(crate::specs::Hex::digit_of, crate::specs::Hex::hexed, crate::specs::Hex::value))]
fn digit_of(octet: u8) -> Option<u8>
    ensures { result ≡ digit_of octet }
{
    match octet {
        b'0'..=b'9' => Some(octet - b'0'),
        b'A'..=b'F' => Some(octet - CAPITALS),
        b'a'..=b'f' => Some(octet - LETTERS),
        _ => None,
    }
}

// Whether every octet is a digit.
fn all_digits(word: &[u8]) -> bool
    ensures { result ≡ all_in hexed word.now }
{
    word.iter().all(|octet| digit_of(*octet).is_some())
}

// Whether a word is one or more pairs of digits.
#[tactic(auto, unfolding(crate::specs::Hex::paired))]
fn is_paired(word: &[u8]) -> bool
    ensures { result ≡ paired word.now }
{
    !word.is_empty() && word.len() % 2 == 0 && all_digits(word)
}

// Writes the octets of a word of pairs to the front of out.
fn decode(word: &[u8], out: &mut [u8])
    requires word_value { all_in hexed word.now ≡ true }
    requires word_in_bounds { length word.now / 2 ≤ length out.old }
    ensures { out.new ≡ overlay (decoded word.now) out.old }
{
    for i in 0..word.len() / 2 {
        let high = digit_of(word[2 * i]).unwrap();
        let low = digit_of(word[2 * i + 1]).unwrap();
        out[i] = 16 * high + low;
    }
}

// The octets of a word, written to the front of out; out stays as it is where the word is bad or has more than out holds.
pub fn octets_of(word: &[u8], out: &mut [u8]) -> Option<usize>
    ensures { taken result out.new ≡ octets_of word.now out.old }
{
    if crate::same(word, b"-") {
        return Some(0);
    }
    if !is_paired(word) {
        return None;
    }
    let n = word.len() / 2;
    if out.len() < n {
        return None;
    }
    decode(word, out);
    Some(n)
}
