// Writing a logical line folded.
ghost use Rattle.std.specs.Prelude.{◌≡◌, [], ◌∷◌, ◌++◌, ◌+◌, ◌≤◌, length};
ghost use Rattle.octets.specs.Room.{overlay};
ghost use Rattle.folder_line.specs.Pieces.{folded, Clean};

use numbers::limit;

// Writes s and CR LF to the start of d, and answers how many octets that are.
fn put_last(s: &[u8], d: &mut [u8]) -> usize
    requires { length s.now + 2 ≤ length d.old }
    ensures { (result ≡ length s.now + 2) × (d.new ≡ overlay (s.now ++ (13 ∷ 10 ∷ [])) d.old) }
{
    octets::copying::copy_in(d, s);
    let n = s.len();
    d[n] = b'\r';
    d[n + 1] = b'\n';
    n + 2
}

// Writes s and a fold to the start of d, and answers how many octets that are.
fn put_cut(s: &[u8], d: &mut [u8]) -> usize
    requires { length s.now + 3 ≤ length d.old }
    ensures { (result ≡ length s.now + 3) × (d.new ≡ overlay (s.now ++ (13 ∷ 10 ∷ 32 ∷ [])) d.old) }
{
    let n = put_last(s, d);
    d[n] = b' ';
    n + 1
}

// Writes the line folded to the start of d, and answers how many octets that are.
pub fn fold_line(s: &[u8], d: &mut [u8]) -> usize
    requires { Clean s.now × (length (folded s.now) ≤ length d.old) }
    ensures { (result ≡ length (folded s.now)) × (d.new ≡ overlay (folded s.now) d.old) }
{
    let mut a: usize = 0;
    let mut w: usize = 0;
    let mut room: usize = limit::FIRST_LINE;
    while room < s.len() - a {
        let e = crate::cutting::cut(s, a, room);
        let n = put_cut(&s[a..e], &mut d[w..]);
        w += n;
        a = e;
        room = limit::LATER_LINE;
    }
    let n = put_last(&s[a..], &mut d[w..]);
    w + n
}
