// Numbers in decimal digits.
ghost use Rattle.std.specs.Prelude.{◌≡◌};
ghost use Rattle.program_numbers.specs.Decimal.{digit_of, number_of};

// What a decimal digit stands for.
#[tactic(auto, unfolding(crate::specs::Decimal::digit_of, crate::specs::Decimal::digit, crate::specs::Decimal::ones))]
fn digit_of(octet: u8) -> Option<usize>
    ensures { result ≡ digit_of octet }
{
    match octet {
        b'0'..=b'9' => Some(usize::from(octet - b'0')),
        _ => None,
    }
}

// The number that a word has in decimal digits, where it is one that fits.
pub fn number_of(word: &[u8]) -> Option<usize>
    ensures { result ≡ number_of word.now }
{
    if word.is_empty() {
        return None;
    }
    let mut n: usize = 0;
    for octet in word {
        let one = digit_of(*octet)?;
        n = n.checked_mul(10)?.checked_add(one)?;
    }
    Some(n)
}
