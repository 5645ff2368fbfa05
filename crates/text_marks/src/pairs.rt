// Text that is told by each octet and the one before it, with no early exit, so that it compiles to vector instructions.
ghost use Rattle.std.specs.Prelude.{◌≡◌};
ghost use Rattle.octets.specs.Classes.{bit};
ghost use Rattle.text_marks.specs.Pairs.{unsettled, settled};

// 1 for an octet that is no end of an escape after a backslash, or a bare comma where no texts are listed; 0 for any other.
fn pair_bit(before: u8, b: u8, listed: bool) -> u8
    ensures { result ≡ bit (unsettled listed before b) 1 }
{
    let coded = ((b == b',') as u8 | (b == b';') as u8) | ((b == b'n') as u8 | (b == b'N') as u8);
    let bare = (b == b',') as u8 & (!listed) as u8;
    ((before == b'\\') as u8 & (coded == 0) as u8) | ((before != b'\\') as u8 & bare)
}

// Whether each octet fits the one before it: escapes are whole, none is of a backslash, and no comma is bare unless texts are listed.
pub fn all_settled(s: &[u8], listed: bool) -> bool
    ensures { result ≡ settled listed 0 s.now }
{
    let mut bad: u8 = 0;
    let mut before: u8 = 0;
    for b in s {
        bad |= pair_bit(before, *b, listed);
        before = *b;
    }
    bad == 0 && before != b'\\'
}
