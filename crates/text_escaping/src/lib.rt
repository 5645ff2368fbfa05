// Writing text with its escapes, or with any pairs of a lead octet and a letter.
#![tactic(auto)]

ghost use Rattle.std.specs.Prelude.{◌≡◌, ◌≤◌, length};
ghost use Rattle.octets.specs.Room.{overlay};
ghost use Rattle.text_escaping.specs.Escaped.{Letters};
ghost use Rattle.text_escaping.specs.Coded.{coded};

// What follows the lead octet in the pair of each octet, and 0 for one that stays as it is.
pub type LetterTable = [u8; 256];

// The letters of escapes, whose lead is the backslash.
pub fn letters() -> LetterTable
    ensures { Letters result }
{
    let mut t = [0u8; 256];
    t[b'\n' as usize] = b'n';
    t[b',' as usize] = b',';
    t[b';' as usize] = b';';
    t[b'\\' as usize] = b'\\';
    t
}

// Writes each octet that has a letter as the lead and its letter, and any other as it is, to the start of `out`.
pub fn write(t: &LetterTable, lead: u8, text: &[u8], out: &mut [u8])
    requires { length (coded lead t.now text.now) ≤ length out.old }
    ensures { out.new ≡ overlay (coded lead t.now text.now) out.old }
{
    let mut j: usize = 0;
    for b in text {
        let x = t[*b as usize];
        if x == 0 {
            out[j] = *b;
            j += 1;
        } else {
            out[j] = lead;
            out[j + 1] = x;
            j += 2;
        }
    }
}
