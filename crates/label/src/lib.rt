// Labels, which are parameter values between quote marks: encoding and decoding by RFC 6350 or RFC 6868.
#![tactic(auto)]

ghost use Rattle.std.specs.Prelude.{◌≡◌, ◌≤◌, length};
ghost use Rattle.numbers.specs.Limits as limit;
ghost use Rattle.octets.specs.Room.{filled, written, fill, fill_bounded};
ghost use Rattle.label_carets.specs.Encoded.{encoded};
ghost use Rattle.label_carets.specs.Decoded.{decoded};
ghost use Rattle.label_carets.specs.declared.Rule.TheVariants.{Rfc6350, Rfc6868};
ghost use Rattle.label.specs.Outcomes.{unwritable, sayable, encode_outcome, decode_outcome};

use label_carets::Rule;
use numbers::refusal::{Reason, Refusal};
use utf8_screening::texts;

// The place of the first newline or quote mark of a value.
fn first_unwritable(value: &[u8]) -> Option<usize>
    ensures { result ≡ unwritable value.now }
{
    value.iter().position(|b| *b == b'\n' || *b == b'"')
}

// Writes a value as it is, or refuses with NO_LABEL or ROOM.
fn encode_same(value: &[u8], out: &mut [u8]) -> Result<usize, Refusal>
    requires { length value.now ≤ limit.octets }
    ensures { filled (written result) out.new ≡ sayable Rfc6350 value.now out.old (fill_bounded (encoded Rfc6350 value.now) out.old) }
{
    if let Some(first) = first_unwritable(value) {
        return Err(Refusal(Reason::NoLabel, first));
    }
    text::put(value, out)
}

// Writes a value with its pairs, or refuses with FORM_TOO_LONG or ROOM.
fn encode_each(value: &[u8], out: &mut [u8]) -> Result<usize, Refusal>
    requires { length value.now ≤ limit.octets }
    ensures { filled (written result) out.new ≡ fill_bounded (encoded Rfc6868 value.now) out.old }
{
    let pairs = label_marks::count_marks(value, b'\n', b'"');
    text::put_coded(&label_carets::letters(), b'^', value, pairs, out)
}

// Writes a value as a label, or refuses with TOO_LONG, TEXT_OCTET, NO_LABEL, FORM_TOO_LONG or ROOM.
pub fn encode(rule: Rule, value: &[u8], out: &mut [u8]) -> Result<usize, Refusal>
    ensures { filled (written result) out.new ≡ encode_outcome rule value.now out.old }
{
    let seen = text::screen(
        value,
        |s| label_marks::see(s, b'\n', b'"', 0),
        |s| texts::first_bad(s, true),
    )?;
    if seen < 2 {
        return text::put(value, out);
    }
    match rule {
        Rule::Rfc6350 => encode_same(value, out),
        Rule::Rfc6868 => encode_each(value, out),
    }
}

// Writes what the pairs of a label stand for, or refuses with ROOM; it is measured first only where the label itself would not fit.
fn decode_each(label: &[u8], out: &mut [u8]) -> Result<usize, Refusal>
    ensures { filled (written result) out.new ≡ fill (decoded Rfc6868 label.now) out.old }
{
    if label.len() <= out.len() {
        let kept = label_carets::write(label, out);
        return Ok(kept);
    }
    let n = label_carets::measure(label);
    if out.len() < n {
        return Err(Refusal(Reason::Room, n));
    }
    label_carets::write(label, out);
    Ok(n)
}

// Writes the value that a label stands for, or refuses with TOO_LONG, TEXT_OCTET or ROOM.
pub fn decode(rule: Rule, label: &[u8], out: &mut [u8]) -> Result<usize, Refusal>
    ensures { filled (written result) out.new ≡ decode_outcome rule label.now out.old }
{
    let seen = text::screen(
        label,
        |s| label_marks::see(s, b'^', b'^', b'"'),
        label_marks::units::first_bad,
    )?;
    if seen < 2 {
        return text::put(label, out);
    }
    match rule {
        Rule::Rfc6350 => text::put(label, out),
        Rule::Rfc6868 => decode_each(label, out),
    }
}
