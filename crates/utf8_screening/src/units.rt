// The first octet of a text that is not allowed or starts no character, by the table of classes.
ghost use Rattle.std.specs.Prelude.{◌≡◌, ◌<◌, length, drop};
ghost use Rattle.octets.specs.Classes.{Classes};
ghost use Rattle.utf8.specs.Characters.{allowed, unit, first_bad};
ghost use Rattle.utf8_screening.specs.Plain.{Strides};

use crate::plain::BLOCK;
use octets::classes::ClassTable;

// The length of the character at i, or 0 where none or a control starts there; tab is no such control, and LF is none where lf is set.
pub fn unit_length(t: &ClassTable, s: &[u8], i: usize, lf: bool) -> usize
    requires classes { Classes t.now }
    requires i_in_bounds { i < length s.now }
    ensures { result ≡ unit (allowed lf) (drop i s.now) }
{
    let b = s[i];
    if t[b as usize] & octets::classes::VALUE == 0 {
        return if lf && b == b'\n' { 1 } else { 0 };
    }
    if b < 0x80 {
        return 1;
    }
    utf8::char_length(s, i)
}

// How far the exact scan goes at i: over sixteen plain octets at once, or over one character; 0 where none or a control starts there.
fn stride(t: &ClassTable, s: &[u8], i: usize, lf: bool) -> usize
    requires classes { Classes t.now }
    requires i_in_bounds { i < length s.now }
    ensures { Strides (allowed lf) s.now i result }
{
    if BLOCK <= s.len() - i && crate::plain::is_plain_block(s, i) {
        return BLOCK;
    }
    unit_length(t, s, i, lf)
}

// The exact scan of first_bad; a text of a call of its own is scanned by it at once, so that first_bad is compiled into the walk over lines.
pub(crate) fn first_unfit(t: &ClassTable, s: &[u8], lf: bool) -> usize
    requires { Classes t.now }
    ensures { result ≡ first_bad (allowed lf) s.now }
{
    let mut i: usize = 0;
    while i < s.len() {
        let n = stride(t, s, i, lf);
        if n == 0 {
            return i;
        }
        i += n;
    }
    i
}

// The first octet that is a control other than tab (and LF, where lf is set) or that starts no character; the length where there is none.
pub fn first_bad(t: &ClassTable, s: &[u8], lf: bool) -> usize
    requires { Classes t.now }
    ensures { result ≡ first_bad (allowed lf) s.now }
{
    if crate::plain::all_plain(s) {
        return s.len();
    }
    first_unfit(t, s, lf)
}
