// Text: escaping, and unescaping, which gives back what was escaped.
#![tactic(auto)]

ghost use Rattle.std.specs.Prelude.{◌≡◌, ◌+◌, ◌≤◌, length};
ghost use Rattle.std.specs.Fn.{FnOnceReturnsAt};
ghost use Rattle.numbers.specs.Limits as limit;
ghost use Rattle.octets.specs.Room.{filled, written, fill, fill_bounded};
ghost use Rattle.text_escaping.specs.Coded.{coded};
ghost use Rattle.text_escaping.specs.Escaped.{escaped};
ghost use Rattle.text_unescaping.specs.Unescaped.{unescaped};
ghost use Rattle.text.specs.Screened.{Screens};
ghost use Rattle.text.specs.Outcomes.{faultless, escape_outcome, unescape_outcome};

use numbers::limit;
use numbers::refusal::{Reason, Refusal};
use text_escaping::LetterTable;
use utf8_screening::texts;

// Refuses a text with TOO_LONG or TEXT_OCTET, else answers what `see` sees in it: 1 where an octet may be bad, 2 where one is a mark, 3
// where both, else 0. `first_bad` finds the first bad octet, and is asked only where one may be bad.
pub fn screen<S: FnOnce(&[u8]) -> u8, B: FnOnce(&[u8]) -> usize>(
    text: &[u8],
    see: S,
    first_bad: B,
) -> Result<u8, Refusal>
    requires see { S.IsAlwaysCallable see }
    requires first_bad { B.IsAlwaysCallable first_bad }
    ensures { Screens (FnOnceReturnsAt S.FnOnce see text.now) (FnOnceReturnsAt B.FnOnce first_bad text.now) text.now result }
{
    if limit::OCTETS < text.len() {
        return Err(Refusal(Reason::TooLong, limit::OCTETS));
    }
    let seen = see(text);
    if seen == 0 || seen == 2 {
        return Ok(seen);
    }
    let bad = first_bad(text);
    if bad < text.len() {
        return Err(Refusal(Reason::TextOctet, bad));
    }
    Ok(seen)
}

// Writes the text as it is, or refuses with ROOM.
pub fn put(text: &[u8], out: &mut [u8]) -> Result<usize, Refusal>
    ensures { filled (written result) out.new ≡ fill text.now out.old }
{
    if out.len() < text.len() {
        return Err(Refusal(Reason::Room, text.len()));
    }
    octets::copying::copy_in(out, text);
    Ok(text.len())
}

// Writes a text in which each octet with a letter, of which there are `pairs`, is written as the lead and its letter, or refuses with
// FORM_TOO_LONG or ROOM.
pub fn put_coded(
    t: &LetterTable,
    lead: u8,
    text: &[u8],
    pairs: usize,
    out: &mut [u8],
) -> Result<usize, Refusal>
    requires text_len_bound { length text.now ≤ limit.octets }
    requires pairs_counted { length text.now + pairs ≡ length (coded lead t.now text.now) }
    requires pairs_bound { pairs ≤ length text.now }
    ensures { filled (written result) out.new ≡ fill_bounded (coded lead t.now text.now) out.old }
{
    let n = text.len() + pairs;
    if limit::OCTETS < n {
        return Err(Refusal(Reason::FormTooLong, limit::OCTETS));
    }
    if out.len() < n {
        return Err(Refusal(Reason::Room, n));
    }
    text_escaping::write(t, lead, text, out);
    Ok(n)
}

// Escapes octet by octet, or refuses with FORM_TOO_LONG or ROOM.
fn escape_each(text: &[u8], out: &mut [u8]) -> Result<usize, Refusal>
    requires { length text.now ≤ limit.octets }
    ensures { filled (written result) out.new ≡ fill_bounded (escaped text.now) out.old }
{
    let pairs = text_marks::counts::marks(text);
    put_coded(&text_escaping::letters(), b'\\', text, pairs, out)
}

// Writes the text with its escapes, or refuses with TOO_LONG, TEXT_OCTET, FORM_TOO_LONG or ROOM.
pub fn escape(text: &[u8], out: &mut [u8]) -> Result<usize, Refusal>
    ensures { filled (written result) out.new ≡ escape_outcome text.now out.old }
{
    let seen = screen(
        text,
        |s| text_marks::see(s, b';', b'\n'),
        |s| texts::first_bad(s, true),
    )?;
    if seen < 2 {
        return put(text, out);
    }
    escape_each(text, out)
}

// Unescapes octet by octet, or refuses with ESCAPE or ROOM.
fn unescape_each(text: &[u8], out: &mut [u8]) -> Result<usize, Refusal>
    requires { length text.now ≤ limit.octets }
    ensures { filled (written result) out.new ≡ faultless text.now out.old (fill (unescaped text.now) out.old) }
{
    let kept = text_unescaping::measure(text).map_err(|place| Refusal(Reason::Escape, place))?;
    if out.len() < kept {
        return Err(Refusal(Reason::Room, kept));
    }
    text_unescaping::write(text, out);
    Ok(kept)
}

// Writes the text that a text with escapes stands for, or refuses with TOO_LONG, TEXT_OCTET, ESCAPE or ROOM.
pub fn unescape(text: &[u8], out: &mut [u8]) -> Result<usize, Refusal>
    ensures { filled (written result) out.new ≡ unescape_outcome text.now out.old }
{
    let seen = screen(
        text,
        |s| text_marks::see(s, b',', b','),
        |s| texts::first_bad(s, false),
    )?;
    if seen < 2 {
        return put(text, out);
    }
    unescape_each(text, out)
}
