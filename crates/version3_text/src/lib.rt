// Text that is unescaped and escaped anew, octet by octet, and its bare semicolons.
#![tactic(auto)]

ghost use Rattle.std.specs.Prelude.{◌≡◌, ◌&&◌, ◌*◌, ◌<◌, ◌≤◌, eqb, length, drop, replicate};
ghost use Rattle.octets.specs.Ascii as ascii;
ghost use Rattle.octets.specs.Room.{overlay};
ghost use Rattle.version3_text.specs.Renewed.{pair_at, small, renewed, semicolons};

mod marks;

// Whether a backslash stands at i, and an octet after it.
fn is_pair(s: &[u8], i: usize) -> bool
    requires { i < length s.now }
    ensures { result ≡ pair_at (drop i s.now) }
{
    s[i] == b'\\' && 1 < s.len() - i
}

// What follows the backslash of an escape that is written anew.
fn make_small(b: u8) -> u8
    ensures { result ≡ small b }
{
    if b == b'N' { b'n' } else { b }
}

// Whether an octet is a semicolon that gets a backslash: one in a text that semicolons part nothing of.
fn is_marked(b: u8, whole: bool) -> bool
    ensures { result ≡ (whole && eqb b ascii.semicolon) }
{
    whole && b == b';'
}

// Writes a text anew to the start of `out`, and answers how many octets that are: `\N` as `\n`, and a bare semicolon as `\;` in a text that is
// `whole`, not parted by semicolons. The octets up to the next backslash or semicolon are written at once.
pub fn renew(whole: bool, text: &[u8], out: &mut [u8]) -> usize
    requires { length (renewed whole text.now) ≤ length out.old }
    ensures { (result ≡ length (renewed whole text.now)) × (out.new ≡ overlay (renewed whole text.now) out.old) }
{
    let mut i: usize = 0;
    let mut j: usize = 0;
    while i < text.len() {
        if is_pair(text, i) {
            out[j] = b'\\';
            out[j + 1] = make_small(text[i + 1]);
            j += 2;
            i += 2;
        } else if is_marked(text[i], whole) {
            out[j] = b'\\';
            out[j + 1] = b';';
            j += 2;
            i += 1;
        } else {
            let end = marks::next_mark(text, i + 1);
            octets::copying::copy_in(&mut out[j..], &text[i..end]);
            j += end - i;
            i = end;
        }
    }
    j
}

// How many bare semicolons a text has.
pub fn count_semicolons(text: &[u8]) -> usize
    ensures { (result ≡ length (semicolons text.now)) × (result ≤ length text.now) }
{
    let mut i: usize = 0;
    let mut n: usize = 0;
    while i < text.len() {
        if is_pair(text, i) {
            i += 2;
        } else if text[i] == b';' {
            n += 1;
            i += 1;
        } else {
            i = marks::next_mark(text, i + 1);
        }
    }
    n
}

// Writes n semicolons to the start of `out`.
pub fn put_semicolons(n: usize, out: &mut [u8])
    requires { n ≤ length out.old }
    ensures { out.new ≡ overlay (replicate n ascii.semicolon) out.old }
{
    out[..n].fill(b';');
}
