// The first bad octet of a text that is not plain; a short text is first scanned without the table of classes, which costs more than the scan.
ghost use Rattle.std.specs.Prelude.{◌≡◌, ◌<◌, length};
ghost use Rattle.utf8.specs.Characters.{allowed, first_bad};
ghost use Rattle.utf8_screening.specs.Plain.{Easy, Reached};

// The length below which a text is first scanned without the table of classes.
const SHORT: usize = 64;

// 1 for a plain octet at i, 2 for a character of two octets there, 0 for anything else.
fn easy_at(s: &[u8], i: usize) -> usize
    requires { i < length s.now }
    ensures { Easy s.now i result }
{
    let b = s[i];
    if crate::plain::odd_bit(b) == 0 {
        return 1;
    }
    if (0xc2..=0xdf).contains(&b) && 2 <= s.len() - i && utf8::is_tail(s[i + 1]) {
        return 2;
    }
    0
}

// How far plain octets and characters of two octets reach.
fn reach(s: &[u8]) -> usize
    ensures { Reached s.now result }
{
    let mut i: usize = 0;
    while i < s.len() {
        let n = easy_at(s, i);
        if n == 0 {
            return i;
        }
        i += n;
    }
    i
}

// The first octet that is a control other than tab (and LF, where lf is set) or that starts no character; the length where there is none.
pub fn first_bad(s: &[u8], lf: bool) -> usize
    ensures { result ≡ first_bad (allowed lf) s.now }
{
    if s.len() < SHORT && reach(s) == s.len() {
        return s.len();
    }
    let t = octets::classes::table();
    crate::units::first_unfit(&t, s, lf)
}
