// Text with escapes: its first fault, how many octets it stands for, and writing those.
#![tactic(auto)]

ghost use Rattle.std.specs.Prelude.{◌≡◌, ◌+◌, ◌<◌, ◌≤◌, length, drop};
ghost use Rattle.numbers.specs.Limits as limit;
ghost use Rattle.octets.specs.Room.{overlay};
ghost use Rattle.text_unescaping.specs.Unescaped.{code, meant, escape_at, first_fault, unescaped};
ghost use Rattle.text_unescaping.specs.Measured.{measured};

// The length below which a text is measured escape by escape.
const SHORT: usize = 32;

// Whether an octet makes an escape of the backslash before it.
fn is_code(b: u8) -> bool
    ensures { result ≡ code b }
{
    matches!(b, b'\\' | b',' | b';' | b'n' | b'N')
}

// Whether an escape starts at i.
fn escape_at(s: &[u8], i: usize) -> bool
    requires { i < length s.now }
    ensures { result ≡ escape_at (drop i s.now) }
{
    s[i] == b'\\' && 2 <= s.len() - i && is_code(s[i + 1])
}

// The octet that an escape stands for, by what follows its backslash.
fn meant_by(b: u8) -> u8
    ensures { result ≡ meant b }
{
    match b {
        b'n' | b'N' => b'\n',
        _ => b,
    }
}

// Measures a text, escape by escape.
fn measure_each(text: &[u8]) -> Result<usize, usize>
    ensures { result ≡ measured text.now }
{
    let mut i: usize = 0;
    let mut kept: usize = 0;
    while i < text.len() {
        if text[i] == b'\\' {
            if !escape_at(text, i) {
                return Err(i);
            }
            kept += 1;
            i += 2;
        } else {
            if text[i] == b',' {
                return Err(i);
            }
            kept += 1;
            i += 1;
        }
    }
    Ok(kept)
}

// How many octets a text stands for, or the place of its first fault.
pub fn measure(text: &[u8]) -> Result<usize, usize>
    requires { length text.now ≤ limit.octets }
    ensures { result ≡ measured text.now }
{
    if SHORT <= text.len() && text_marks::pairs::all_settled(text, false) {
        return Ok(text.len() - text_marks::counts::backslashes(text));
    }
    measure_each(text)
}

// Writes what a text without faults stands for to the start of `out`.
pub fn write(text: &[u8], out: &mut [u8])
    requires text_value { first_fault text.now ≡ length text.now }
    requires text_in_bounds { length (unescaped text.now) ≤ length out.old }
    ensures { out.new ≡ overlay (unescaped text.now) out.old }
{
    let mut i: usize = 0;
    let mut j: usize = 0;
    while i < text.len() {
        if text[i] == b'\\' {
            out[j] = meant_by(text[i + 1]);
            j += 1;
            i += 2;
        } else {
            out[j] = text[i];
            j += 1;
            i += 1;
        }
    }
}
