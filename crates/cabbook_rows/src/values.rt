// What the value of a line should be where it breaks its kind, in words.
ghost use Rattle.std.specs.Prelude.{◌≡◌, ◌≤◌, length};
ghost use Rattle.numbers.specs.Limits as limit;
ghost use Rattle.program_output.specs.Pages.{page, added};
ghost use Rattle.cabbook_rows.specs.Values.{parts_words, line_words, raw_value_words, wanted_words};

use crate::under;
use card_line::Parts;
use numbers::limit;
use numbers::refusal::Reason;
use octets::slices::part;
use property_table::Edition;

// Adds what the value of a logical line with these parts should be at an octet of the line.
fn put_parts(room: &mut [u8], at: usize, line: &[u8], p: Parts, octet: usize) -> usize
    ensures { page result room.new ≡ added (parts_words p line.now octet) (page at room.old) }
{
    let name_end = under::put_cut(room, at, part(line, 0, p.name_end), under::NAME);
    let after_backslash = cabbook_positions::ends_in_escape(part(line, p.value_start, octet));
    let parts = cabbook_positions::parts(part(line, p.value_start, line.len()));
    cabbook_messages::wants::put_wants(room, name_end, p.row, p.kind, after_backslash, parts)
}

// Adds what the value of a logical line should be at an octet of the line: edition two has the rows of both; the words of the refusal where it breaks the line rule.
#[tactic(auto, unfolding(crate::specs::Values::line_words))]
fn put_line(room: &mut [u8], at: usize, line: &[u8], octet: usize) -> usize
    requires { length line.now ≤ limit.octets }
    ensures { page result room.new ≡ added (line_words line.now octet) (page at room.old) }
{
    let t = octets::classes::table();
    let rows = property_table::table();
    match card_line::parts_of(&t, &rows, Edition::Second, line) {
        Ok(p) => put_parts(room, at, line, p, octet),
        Err(_) => cabbook_messages::words::put_words(room, at, Reason::Value),
    }
}

// Adds what the value of a raw line should be at an octet of the logical line.
fn put_raw_value(room: &mut [u8], at: usize, raw: &[u8], octet: usize) -> usize
    requires { length raw.now ≤ limit.octets }
    ensures { page result room.new ≡ added (raw_value_words raw.now octet) (page at room.old) }
{
    let mut text = [0u8; limit::OCTETS];
    let n = line_unfolding::unfold(raw, &mut text);
    put_line(room, at, part(&text, 0, n), octet)
}

// Adds what the value of the line in which a place lies should be there; the words of the refusal where the text is too long for an input.
pub(crate) fn put_wanted(room: &mut [u8], at: usize, s: &[u8], place: usize) -> usize
    ensures { page result room.new ≡ added (wanted_words s.now place) (page at room.old) }
{
    if s.len() > limit::OCTETS {
        return cabbook_messages::words::put_words(room, at, Reason::Value);
    }
    let from = cabbook_positions::line_start(s, place);
    let end = line_folds::spans::line_end(s, from);
    let octet = line_unfolding::unfolded_length(part(s, from, place));
    put_raw_value(room, at, part(s, from, end), octet)
}
