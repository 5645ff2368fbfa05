// The pairs of RFC 6868: the letters that follow a caret, how many octets a label stands for, and writing those.
#![tactic(auto)]

ghost use Rattle.std.specs.Prelude.{◌≡◌, ◌<◌, ◌≤◌, length, drop};
ghost use Rattle.octets.specs.Room.{overlay};
ghost use Rattle.label_carets.specs.Encoded.{Letters};
ghost use Rattle.label_carets.specs.Decoded.{code, meant, pair_at, decoded};
ghost use Rattle.label_carets.specs.declared.Rule.TheVariants.{Rfc6868};

use text_escaping::LetterTable;

// How a caret in a label is read.
#[derive(Clone, Copy, Debug, PartialEq, Eq)]
pub enum Rule {
    // It stands for itself.
    Rfc6350,
    // `^n` is a newline, `^^` a caret and `^'` a quote mark; any other caret stands for itself.
    Rfc6868,
}

// The letters of pairs, whose lead is the caret.
pub fn letters() -> LetterTable
    ensures { Letters result }
{
    let mut t = [0u8; 256];
    t[b'\n' as usize] = b'n';
    t[b'"' as usize] = b'\'';
    t[b'^' as usize] = b'^';
    t
}

// Whether an octet makes a pair of the caret before it.
fn is_code(b: u8) -> bool
    ensures { result ≡ code b }
{
    matches!(b, b'n' | b'^' | b'\'')
}

// Whether a pair starts at i.
fn pair_at(s: &[u8], i: usize) -> bool
    requires { i < length s.now }
    ensures { result ≡ pair_at Rfc6868 (drop i s.now) }
{
    s[i] == b'^' && 2 <= s.len() - i && is_code(s[i + 1])
}

// The octet that a pair stands for, by what follows its caret.
fn meant_by(b: u8) -> u8
    ensures { result ≡ meant b }
{
    match b {
        b'n' => b'\n',
        b'\'' => b'"',
        _ => b,
    }
}

// How many octets a label stands for.
pub fn measure(label: &[u8]) -> usize
    ensures { result ≡ length (decoded Rfc6868 label.now) }
{
    let mut i: usize = 0;
    let mut kept: usize = 0;
    while i < label.len() {
        if pair_at(label, i) {
            kept += 1;
            i += 2;
        } else {
            kept += 1;
            i += 1;
        }
    }
    kept
}

// Writes what a label stands for to the start of `out`, and answers how many octets that is.
pub fn write(label: &[u8], out: &mut [u8]) -> usize
    requires { length (decoded Rfc6868 label.now) ≤ length out.old }
    ensures out_after { out.new ≡ overlay (decoded Rfc6868 label.now) out.old }
    ensures value { result ≡ length (decoded Rfc6868 label.now) }
{
    let mut i: usize = 0;
    let mut j: usize = 0;
    while i < label.len() {
        if pair_at(label, i) {
            out[j] = meant_by(label[i + 1]);
            j += 1;
            i += 2;
        } else {
            out[j] = label[i];
            j += 1;
            i += 1;
        }
    }
    j
}
