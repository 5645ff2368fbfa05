// The two forms of a GEO value: `a;b` in version 3 and `geo:a,b` in version 4, a and b floats.
#![tactic(auto)]

ghost use Rattle.std.specs.Prelude.{◌≡◌, true, ◌+◌, ◌<◌, ◌≤◌, length, drop};
ghost use Rattle.octets.specs.Room.{overlay};
ghost use Rattle.octets.specs.Classes.{digit, run};
ghost use Rattle.version3_geo.specs.Floats.{digits, fraction, unsigned, sign, float, up_to, floats, swapped, schemed, old_geo, new_geo, made_new, made_old};

// How many digits stand first.
fn digits_end(s: &[u8]) -> usize
    ensures { (result ≡ run digit s.now) × (result ≤ length s.now) }
{
    s.iter()
        .position(|&b| !b.is_ascii_digit())
        .unwrap_or(s.len())
}

// Whether s is one digit or more.
fn are_digits(s: &[u8]) -> bool
    ensures { result ≡ digits s.now }
{
    !s.is_empty() && digits_end(s) == s.len()
}

// Whether s is empty, or a dot and digits.
fn is_fraction(s: &[u8]) -> bool
    ensures { result ≡ fraction s.now }
{
    if s.len() == 0 {
        return true;
    }
    if s[0] != b'.' {
        return false;
    }
    are_digits(&s[1..])
}

// Whether s is a float without a sign.
fn is_unsigned(s: &[u8]) -> bool
    ensures { result ≡ unsigned s.now }
{
    let end = digits_end(s);
    if end == 0 {
        return false;
    }
    is_fraction(&s[end..])
}

// Whether an octet is a sign.
fn is_sign(b: u8) -> bool
    ensures { result ≡ sign b }
{
    b == b'+' || b == b'-'
}

// Whether s is a float.
fn is_float(s: &[u8]) -> bool
    ensures { result ≡ float s.now }
{
    if s.len() == 0 {
        return is_unsigned(s);
    }
    if is_sign(s[0]) {
        return is_unsigned(&s[1..]);
    }
    is_unsigned(s)
}

// Where the first mark stands; the length where there is none.
fn mark_at(s: &[u8], mark: u8) -> usize
    ensures { (result ≡ up_to mark s.now) × (result ≤ length s.now) }
{
    s.iter().position(|&b| b == mark).unwrap_or(s.len())
}

// Whether s is two floats with a mark between them.
fn are_floats(s: &[u8], mark: u8) -> bool
    ensures { result ≡ floats mark s.now }
{
    let at = mark_at(s, mark);
    if at == s.len() {
        return false;
    }
    if !is_float(&s[..at]) {
        return false;
    }
    let next = at + 1;
    is_float(&s[next..])
}

// Whether `geo:` stands first.
fn has_scheme(s: &[u8]) -> bool
    ensures value { result ≡ schemed s.now }
    ensures in_bounds { result ≡ true → 4 ≤ length s.now }
{
    s.starts_with(b"geo:")
}

// Whether s is a GEO value of version 3.
pub fn is_old(s: &[u8]) -> bool
    ensures { result ≡ old_geo s.now }
{
    are_floats(s, b';')
}

// Whether s is a GEO value of version 4 that version 3 has too.
pub fn is_new(s: &[u8]) -> bool
    ensures { result ≡ new_geo s.now }
{
    if !has_scheme(s) {
        return false;
    }
    are_floats(&s[4..], b',')
}

// Writes s with its first mark made another one to the start of `out`.
fn put_swapped(s: &[u8], mark: u8, other: u8, out: &mut [u8])
    requires { length s.now ≤ length out.old }
    ensures { out.new ≡ overlay (swapped mark other s.now) out.old }
{
    octets::copying::copy_in(out, s);
    let at = mark_at(s, mark);
    if at < s.len() {
        out[at] = other;
    }
}

// Writes a GEO value of version 3 as one of version 4 to the start of `out`, and answers how many octets that are.
pub fn put_new(s: &[u8], out: &mut [u8]) -> usize
    requires { length s.now + 4 ≤ length out.old }
    ensures { (result ≡ length (made_new s.now)) × (out.new ≡ overlay (made_new s.now) out.old) }
{
    octets::copying::copy_in(out, b"geo:");
    put_swapped(s, b';', b',', &mut out[4..]);
    s.len() + 4
}

// Writes a GEO value of version 4 as one of version 3 to the start of `out`, and answers how many octets that are; one without `geo:` stays.
pub fn put_old(s: &[u8], out: &mut [u8]) -> usize
    requires { length s.now ≤ length out.old }
    ensures { (result ≡ length (made_old s.now)) × (out.new ≡ overlay (made_old s.now) out.old) }
{
    if !has_scheme(s) {
        octets::copying::copy_in(out, s);
        return s.len();
    }
    put_swapped(&s[4..], b',', b';', out);
    s.len() - 4
}
