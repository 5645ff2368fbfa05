// The calls of reader, folder, text, labels, offsets and version 3.
ghost use Rattle.std.specs.Prelude.{◌≡◌, ◌+◌, ◌≤◌};
ghost use Rattle.octets.specs.Room.{filled, written};
ghost use Rattle.reader.specs.Outcome.{verdict};
ghost use Rattle.program_output.specs.Pages.{page, added};
ghost use Rattle.console_entries.specs.Rooms.{most_room, octet_room, number_room};
ghost use Rattle.console_entries.specs.Entries.{line_end_length, lines_of, count, numbers_of, copy_length, taken_text, rooms_text, read_text, outcome_of, write_text, judge_answer, judge_in_answer, offset_answer, read_answer, read_in_answer, write_answer, chosen_answer, encode_answer, decode_answer, fold_answer};

use crate::rooms;
use folder_raising::Style;
use label_carets::Rule;
use numbers::refusal::Refusal;
use numbers::{field, limit};
use property_table::Edition;
use reader::Verdict;

// The most octets or numbers of room that a request may ask for.
const ROOM: usize = 70000;

// The numbers of the editions.
const FIRST_EDITION: usize = 1;

const SECOND_EDITION: usize = 2;

// How many octets end a line: CR LF.
const LINE_END: usize = 2;

// The entries that write octets to room.
#[derive(Clone, Copy)]
pub enum Writer {
    Fold,
    Escape,
    Unescape,
    Encode(Rule),
    Decode(Rule),
    FoldIn(Edition, Style),
    TakeIn,
    GiveOut,
}

// Adds the answer to `judge OCTETS` in an edition.
pub fn put_judge_answer(edition: Edition, input: &[u8], out: &mut [u8], at: usize) -> usize
    ensures { page result out.new ≡ added (judge_answer edition input.now) (page at out.old) }
{
    let end = console_answers::put_verdict(out, at, reader::judge_as(edition, input));
    console_answers::put_end(out, end)
}

// Adds the answer to `judge-in EDITION OCTETS`.
pub fn put_judge_in_answer(edition: usize, input: &[u8], out: &mut [u8], at: usize) -> usize
    ensures { page result out.new ≡ added (judge_in_answer edition input.now) (page at out.old) }
{
    if edition == FIRST_EDITION {
        return put_judge_answer(Edition::First, input, out, at);
    }
    if edition == SECOND_EDITION {
        return put_judge_answer(Edition::Second, input, out, at);
    }
    console_answers::put_bad(out, at)
}

// Adds the answer to `offset OCTETS`.
pub fn put_offset_answer(value: &[u8], out: &mut [u8], at: usize) -> usize
    ensures { page result out.new ≡ added (offset_answer value.now) (page at out.old) }
{
    let next = console_answers::put_offset(out, at, value_offsets::minutes(value));
    console_answers::put_end(out, next)
}

// How many lines the reader accepted; 0 on a refusal.
fn lines_of(v: Verdict) -> usize
    ensures { result ≡ lines_of (verdict v) }
{
    match v {
        Ok(counts) => counts.lines,
        Err(_) => 0,
    }
}

// How many numbers so many records have, of at most so many.
fn numbers_of(lines: usize, most: usize) -> usize
    ensures { result ≡ numbers_of lines most }
{
    if lines > most / limit::RECORD_LENGTH {
        return most;
    }
    lines * limit::RECORD_LENGTH
}

// Where a line that starts and is so long ends, CR LF and all.
fn past_line(start: u32, length: u32) -> usize
    ensures { result ≡ start + length + line_end_length }
{
    start as usize + length as usize + LINE_END
}

// How long the copy is: the last record says where its last line ends.
fn copy_length(records: &[u32]) -> usize
    ensures { result ≡ copy_length records.now }
{
    let n = records.len();
    if n < limit::RECORD_LENGTH {
        return 0;
    }
    let last = n - limit::RECORD_LENGTH;
    past_line(records[last + field::START], records[last + field::LENGTH])
}

// Adds the octets and numbers that the reader wrote, if it wrote any.
fn put_taken(copy: &[u8], records: &[u32], out: &mut [u8], at: usize) -> usize
    ensures { page result out.new ≡ added (taken_text copy.now records.now) (page at out.old) }
{
    if records.len() == 0 {
        return at;
    }
    let end = console_answers::put_spaced_octets(out, at, copy);
    console_answers::put_spaced_numbers(out, end, records)
}

// Adds what the reader left in its rooms, after the verdict.
fn put_rooms(lines: usize, copy: &[u8], records: &[u32], out: &mut [u8], at: usize) -> usize
    ensures { page result out.new ≡ added (rooms_text lines copy.now records.now) (page at out.old) }
{
    let k = numbers_of(lines, records.len());
    let taken = octets::slices::numbers(records, k);
    let n = copy_length(taken);
    let end = put_taken(octets::slices::part(copy, 0, n), taken, out, at);
    console_answers::put_room_end(out, end, rooms::both_kept(copy, n, records, k))
}

// Adds the reader's answer with these rooms.
fn put_read(
    edition: Edition,
    input: &[u8],
    copy: &mut [u8],
    records: &mut [u32],
    out: &mut [u8],
    at: usize,
) -> usize
    ensures { page result out.new ≡ added (read_text edition input.now copy.old records.old) (page at out.old) }
{
    let v = reader::read(edition, input, copy, records);
    let end = console_answers::put_verdict(out, at, v);
    put_rooms(lines_of(v), copy, records, out, end)
}

// Adds the reader's answer with fresh rooms of r octets and k numbers.
fn put_read_fresh(
    edition: Edition,
    r: usize,
    k: usize,
    input: &[u8],
    out: &mut [u8],
    at: usize,
) -> usize
    requires { (r ≤ most_room) × (k ≤ most_room) }
    ensures { page result out.new ≡ added (read_text edition input.now (octet_room r) (number_room k)) (page at out.old) }
{
    let mut room = [rooms::OCTET_FILL; ROOM];
    let mut records = [rooms::NUMBER_FILL; ROOM];
    put_read(edition, input, &mut room[0..r], &mut records[0..k], out, at)
}

// Adds the answer to `read COPYROOM RECORDROOM OCTETS` in an edition.
pub fn put_read_answer(
    edition: Edition,
    r: usize,
    k: usize,
    input: &[u8],
    out: &mut [u8],
    at: usize,
) -> usize
    ensures { page result out.new ≡ added (read_answer edition r k input.now) (page at out.old) }
{
    if r > ROOM {
        return console_answers::put_bad(out, at);
    }
    if k > ROOM {
        return console_answers::put_bad(out, at);
    }
    put_read_fresh(edition, r, k, input, out, at)
}

// Adds the answer to `read-in EDITION COPYROOM RECORDROOM OCTETS`.
pub fn put_read_in_answer(
    edition: usize,
    r: usize,
    k: usize,
    input: &[u8],
    out: &mut [u8],
    at: usize,
) -> usize
    ensures { page result out.new ≡ added (read_in_answer edition r k input.now) (page at out.old) }
{
    if edition == FIRST_EDITION {
        return put_read_answer(Edition::First, r, k, input, out, at);
    }
    if edition == SECOND_EDITION {
        return put_read_answer(Edition::Second, r, k, input, out, at);
    }
    console_answers::put_bad(out, at)
}

// Calls the entry, which writes to room.
fn call(entry: Writer, input: &[u8], room: &mut [u8]) -> Result<usize, Refusal>
    ensures { filled (written result) room.new ≡ outcome_of entry input.now room.old }
{
    match entry {
        Writer::Fold => folder::fold(Edition::First, input, room),
        Writer::Escape => text::escape(input, room),
        Writer::Unescape => text::unescape(input, room),
        Writer::Encode(rule) => label::encode(rule, input, room),
        Writer::Decode(rule) => label::decode(rule, input, room),
        Writer::FoldIn(edition, style) => folder::fold_styled(edition, style, input, room),
        Writer::TakeIn => version3::take_in(input, room),
        Writer::GiveOut => version3::give_out(input, room),
    }
}

// How many octets an entry wrote; 0 on a refusal.
pub fn count_of(w: Result<usize, Refusal>) -> usize
    ensures { result ≡ count (written w) }
{
    w.unwrap_or(0)
}

// Adds the entry's answer with this room.
fn put_write(entry: Writer, input: &[u8], room: &mut [u8], out: &mut [u8], at: usize) -> usize
    ensures { page result out.new ≡ added (write_text (outcome_of entry input.now room.old)) (page at out.old) }
{
    let w = call(entry, input, room);
    let end = console_answers::put_written(out, at, w, room);
    console_answers::put_room_end(out, end, rooms::is_kept(room, count_of(w)))
}

// Adds the entry's answer with a fresh room of r octets.
fn put_write_fresh(entry: Writer, r: usize, input: &[u8], out: &mut [u8], at: usize) -> usize
    requires { r ≤ most_room }
    ensures { page result out.new ≡ added (write_text (outcome_of entry input.now (octet_room r))) (page at out.old) }
{
    let mut room = [rooms::OCTET_FILL; ROOM];
    put_write(entry, input, &mut room[0..r], out, at)
}

// Adds the answer to `fold ROOM OCTETS`, and to the others that write octets to room.
pub fn put_write_answer(entry: Writer, r: usize, input: &[u8], out: &mut [u8], at: usize) -> usize
    ensures { page result out.new ≡ added (write_answer entry r input.now) (page at out.old) }
{
    if r > ROOM {
        return console_answers::put_bad(out, at);
    }
    put_write_fresh(entry, r, input, out, at)
}

// Adds the answer of one of two entries: of the one for 0, of the other for 1.
fn put_chosen_answer(
    old: Writer,
    new: Writer,
    which: usize,
    r: usize,
    input: &[u8],
    out: &mut [u8],
    at: usize,
) -> usize
    ensures { page result out.new ≡ added (chosen_answer old new which r input.now) (page at out.old) }
{
    if which == 0 {
        return put_write_answer(old, r, input, out, at);
    }
    if which == 1 {
        return put_write_answer(new, r, input, out, at);
    }
    console_answers::put_bad(out, at)
}

// Adds the answer to `encode RULE ROOM OCTETS`.
pub fn put_encode_answer(rule: usize, r: usize, input: &[u8], out: &mut [u8], at: usize) -> usize
    ensures { page result out.new ≡ added (encode_answer rule r input.now) (page at out.old) }
{
    put_chosen_answer(
        Writer::Encode(Rule::Rfc6350),
        Writer::Encode(Rule::Rfc6868),
        rule,
        r,
        input,
        out,
        at,
    )
}

// Adds the answer to `decode RULE ROOM OCTETS`.
pub fn put_decode_answer(rule: usize, r: usize, input: &[u8], out: &mut [u8], at: usize) -> usize
    ensures { page result out.new ≡ added (decode_answer rule r input.now) (page at out.old) }
{
    put_chosen_answer(
        Writer::Decode(Rule::Rfc6350),
        Writer::Decode(Rule::Rfc6868),
        rule,
        r,
        input,
        out,
        at,
    )
}

// Adds the answer to `fold-in EDITION STYLE ROOM OCTETS` in an edition: style 0 is as read and 1 is raised.
fn put_styled_answer(
    edition: Edition,
    style: usize,
    r: usize,
    input: &[u8],
    out: &mut [u8],
    at: usize,
) -> usize
    ensures { page result out.new ≡ added (chosen_answer (Writer.FoldIn edition Style.AsRead) (Writer.FoldIn edition Style.Raised) style r input.now) (page at out.old) }
{
    put_chosen_answer(
        Writer::FoldIn(edition, Style::AsRead),
        Writer::FoldIn(edition, Style::Raised),
        style,
        r,
        input,
        out,
        at,
    )
}

// Adds the answer to `fold-in EDITION STYLE ROOM OCTETS`.
pub fn put_fold_answer(
    edition: usize,
    style: usize,
    r: usize,
    input: &[u8],
    out: &mut [u8],
    at: usize,
) -> usize
    ensures { page result out.new ≡ added (fold_answer edition style r input.now) (page at out.old) }
{
    if edition == FIRST_EDITION {
        return put_styled_answer(Edition::First, style, r, input, out, at);
    }
    if edition == SECOND_EDITION {
        return put_styled_answer(Edition::Second, style, r, input, out, at);
    }
    console_answers::put_bad(out, at)
}
