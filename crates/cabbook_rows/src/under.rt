// What stands under a refusal: the logical line in which its place lies, cut around the place where it is long, and a caret under the place.
ghost use Rattle.std.specs.Prelude.{◌≡◌, ◌≤◌, length};
ghost use Rattle.numbers.specs.Limits as limit;
ghost use Rattle.numbers.specs.Refusals.{number};
ghost use Rattle.program_output.specs.Pages.{page, added};
ghost use Rattle.cabbook_rows.specs.Under.{break_end, shown_end, offending, cut, tail_at, last_part, last_blanks, rest_line, marked, under_lines};

use numbers::limit;
use numbers::refusal::{Reason, Refusal};

// The most octets of a name that are shown.
pub(crate) const NAME: usize = 120;

// The most octets of a line that are shown before a place, but for the rest of a character.
const BEFORE: usize = 72;

// The most octets of a line that are shown from a place on.
const AFTER: usize = 48;

// Where a lone CR or LF is past; the line's end where there is none at the place.
fn break_end(s: &[u8], place: usize, from: usize) -> usize
    requires { from ≤ length s.now }
    ensures { result ≡ break_end s.now place from }
{
    if place < s.len() {
        return place + 1;
    }
    line_folds::spans::line_end(s, from)
}

// Where the part of a line that is shown ends: past a lone CR or LF where that is refused, else at the line's end.
fn shown_end(s: &[u8], r: Refusal, from: usize) -> usize
    requires { from ≤ length s.now }
    ensures { result ≡ shown_end s.now (number r.0) r.1 from }
{
    let Refusal(reason, place) = r;
    match reason {
        Reason::LoneCrOrLf => break_end(s, place, from),
        _ => line_folds::spans::line_end(s, from),
    }
}

// The part of a text that is shown under a refusal; empty at the end of the text.
pub fn offending(s: &[u8], r: Refusal) -> &[u8]
    ensures { result.now ≡ offending s.now (number r.0) r.1 }
{
    let from = cabbook_positions::line_start(s, r.1);
    let end = shown_end(s, r, from);
    octets::slices::part(s, from, end)
}

// Adds the first octets of a text, so many at most; a longer one is cut at a character, and three points stand for the rest.
pub(crate) fn put_cut(room: &mut [u8], at: usize, text: &[u8], most: usize) -> usize
    ensures { page result room.new ≡ added (cut most text.now) (page at room.old) }
{
    let end = cabbook_positions::character_start(text, most);
    let text_end = program_visible::put_visible(room, at, octets::slices::part(text, 0, end));
    program_output::put_unless(room, text_end, end == text.len(), b"...")
}

// Where the part of a text starts that is shown before a place.
fn tail_start(text: &[u8]) -> usize
    ensures { result ≡ tail_at text.now }
{
    if text.len() <= BEFORE {
        return 0;
    }
    cabbook_positions::character_start(text, text.len() - BEFORE)
}

// Adds the last octets of a text; three points stand for what comes before them.
fn put_last(room: &mut [u8], at: usize, text: &[u8]) -> usize
    ensures { page result room.new ≡ added (last_part text.now) (page at room.old) }
{
    let from = tail_start(text);
    let points_end = program_output::put_unless(room, at, from == 0, b"...");
    program_visible::put_visible(
        room,
        points_end,
        octets::slices::part(text, from, text.len()),
    )
}

// Adds blanks as wide as the last octets of a text are shown.
fn put_last_blanks(room: &mut [u8], at: usize, text: &[u8]) -> usize
    ensures { page result room.new ≡ added (last_blanks text.now) (page at room.old) }
{
    let from = tail_start(text);
    let points_end = program_output::put_unless(room, at, from == 0, b"   ");
    cabbook_cells::put_blanks(
        room,
        points_end,
        octets::slices::part(text, from, text.len()),
    )
}

// Adds the rest of a line without its folds, and ends the line.
fn put_rest(room: &mut [u8], at: usize, raw: &[u8]) -> usize
    requires { length raw.now ≤ limit.read_room }
    ensures { page result room.new ≡ added (rest_line raw.now) (page at room.old) }
{
    let mut text = [0u8; limit::READ_ROOM];
    let n = line_unfolding::unfold(raw, &mut text);
    let end = put_cut(room, at, octets::slices::part(&text, 0, n), AFTER);
    program_output::put_all(room, end, b"\n")
}

// Adds a line of two parts without their folds, and under it a caret where the second part starts.
fn put_marked(room: &mut [u8], at: usize, before: &[u8], after: &[u8]) -> usize
    requires { (length before.now ≤ limit.read_room) × (length after.now ≤ limit.read_room) }
    ensures { page result room.new ≡ added (marked before.now after.now) (page at room.old) }
{
    let mut text = [0u8; limit::READ_ROOM];
    let n = line_unfolding::unfold(before, &mut text);
    let left = octets::slices::part(&text, 0, n);
    let start = program_output::put_all(room, at, b"    ");
    let left_end = put_last(room, start, left);
    let line_end = put_rest(room, left_end, after);
    let under = program_output::put_all(room, line_end, b"    ");
    let caret = put_last_blanks(room, under, left);
    program_output::put_all(room, caret, b"^\n")
}

// Adds the logical line in which a refusal's place lies, and a caret under the place; nothing where the text is longer than one that was read.
pub fn put_under(room: &mut [u8], at: usize, s: &[u8], r: Refusal) -> usize
    ensures { page result room.new ≡ added (under_lines s.now (number r.0) r.1) (page at room.old) }
{
    let Refusal(_, place) = r;
    if s.len() > limit::READ_ROOM {
        return at;
    }
    let start = cabbook_positions::line_start(s, place);
    let end = shown_end(s, r, start);
    put_marked(
        room,
        at,
        octets::slices::part(s, start, place),
        octets::slices::part(s, place, end),
    )
}
