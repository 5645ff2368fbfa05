// The first octet of a label that may not stand between quote marks or starts no character, by the table of classes.
ghost use Rattle.std.specs.Prelude.{◌≡◌, ◌<◌, length, drop};
ghost use Rattle.octets.specs.Classes.{Classes, quoted};
ghost use Rattle.utf8.specs.Characters.{unit, first_bad};

use octets::classes::ClassTable;

// The length of the character at i, or 0 where none starts there or where its octet may not stand between quote marks.
fn unit_length(t: &ClassTable, s: &[u8], i: usize) -> usize
    requires classes { Classes t.now }
    requires i_in_bounds { i < length s.now }
    ensures { result ≡ unit quoted (drop i s.now) }
{
    let b = s[i];
    if t[b as usize] & octets::classes::QUOTED == 0 {
        return 0;
    }
    if b < 0x80 {
        return 1;
    }
    utf8::char_length(s, i)
}

// The first octet that may not stand between quote marks or that starts no character; the length where there is none.
pub fn first_bad(s: &[u8]) -> usize
    ensures { result ≡ first_bad quoted s.now }
{
    let t = octets::classes::table();
    let mut i: usize = 0;
    while i < s.len() {
        let n = unit_length(&t, s, i);
        if n == 0 {
            return i;
        }
        i += n;
    }
    i
}
