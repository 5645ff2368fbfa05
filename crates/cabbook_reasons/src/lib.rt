// Why a file is refused, in words for a clerk, by what stands there: for the order of lines, line ends and texts that are no UTF-8.
#![tactic(auto)]

ghost use Rattle.std.specs.Prelude.{◌≡◌, length, ◌-◌};
ghost use Rattle.numbers.specs.Refusals.{number};
ghost use Rattle.program_output.specs.Pages.{page, added};
ghost use Rattle.cabbook_reasons.specs.Reasons.{opening, closing, utf16, marking, mark_from, line_end_words, inner_words, found_words, version_words, between_words, order_words, reason};

use numbers::refusal::{Reason, Refusal};
use octets::cases::same_name;
use octets::slices::part;
use program_output::put_all;
use program_visible::octet_at;

// Whether a word stands at a place, in either case of letters.
fn opens_with(s: &[u8], place: usize, word: &[u8]) -> bool
    ensures { result ≡ opening s.now place word.now }
{
    let rest = part(s, place, s.len());
    same_name(part(rest, 0, word.len()), word)
}

// Whether a word stands right before a place, in either case of letters.
fn closes_with(s: &[u8], place: usize, word: &[u8]) -> bool
    ensures { result ≡ closing s.now place word.now }
{
    let before = part(s, 0, place);
    if before.len() < word.len() {
        return false;
    }
    same_name(part(before, before.len() - word.len(), before.len()), word)
}

// Whether a text starts with the mark of UTF-16, in either order of octets.
fn is_utf16(s: &[u8]) -> bool
    ensures { result ≡ utf16 s.now }
{
    let first = octet_at(s, 0);
    let second = octet_at(s, 1);
    if first == 0xff {
        return second == 0xfe;
    }
    if first == 0xfe {
        return second == 0xff;
    }
    false
}

// Adds what is wrong with a line's end.
fn put_line_end(room: &mut [u8], at: usize, s: &[u8], place: usize) -> usize
    ensures { page result room.new ≡ added (line_end_words s.now place) (page at room.old) }
{
    if octet_at(s, place) == 10 {
        return put_all(
            room,
            at,
            b"LF without CR before it: Unix line ends, and a vCard's are CR LF",
        );
    }
    put_all(
        room,
        at,
        b"CR without LF after it: a vCard's line ends are CR LF",
    )
}

// Adds why a line is out of order that stands inside a card.
fn put_inner(room: &mut [u8], at: usize, s: &[u8], place: usize) -> usize
    ensures { page result room.new ≡ added (inner_words s.now place) (page at room.old) }
{
    if opens_with(s, place, b"BEGIN:") {
        return put_all(
            room,
            at,
            b"BEGIN inside a card: the card before it has no END",
        );
    }
    if opens_with(s, place, b"VERSION:") {
        return put_all(
            room,
            at,
            b"VERSION again: it is the second line of a card, once",
        );
    }
    put_all(room, at, b"line out of order")
}

// Whether a line starts there that tells a card's version, or starts or ends a card.
fn is_mark(s: &[u8], i: usize) -> bool
    ensures { result ≡ marking s.now i }
{
    if !closes_with(s, i, b"\n") {
        return false;
    }
    if opens_with(s, i, b"VERSION:") {
        return true;
    }
    if opens_with(s, i, b"END:") {
        return true;
    }
    opens_with(s, i, b"BEGIN:")
}

// The first place from a place on at which such a line starts; the end of the text where there is none.
fn find_mark(s: &[u8], place: usize) -> usize
    ensures { result ≡ mark_from s.now place (length s.now - place) }
{
    for i in place..s.len() {
        if is_mark(s, i) {
            return i;
        }
    }
    place.max(s.len())
}

// Adds why VERSION is missing as the second line of a card, by the next such line.
fn put_found(room: &mut [u8], at: usize, s: &[u8], mark: usize) -> usize
    ensures { page result room.new ≡ added (found_words s.now mark) (page at room.old) }
{
    if opens_with(s, mark, b"VERSION:4.0") {
        return put_all(room, at, b"VERSION must be the second line of a card");
    }
    if opens_with(s, mark, b"VERSION:3.0") {
        return put_all(
            room,
            at,
            b"version 3.0: this unit takes 4.0, and VERSION as the second line",
        );
    }
    if opens_with(s, mark, b"VERSION:2.1") {
        return put_all(
            room,
            at,
            b"version 2.1: this unit takes 4.0, and VERSION as the second line",
        );
    }
    if opens_with(s, mark, b"VERSION:") {
        return put_all(
            room,
            at,
            b"VERSION must be the second line of a card, and be 4.0",
        );
    }
    put_all(
        room,
        at,
        b"no VERSION line: the second line of a card must be VERSION:4.0",
    )
}

// Adds why VERSION is missing as the second line of the card in which a place lies.
fn put_version(room: &mut [u8], at: usize, s: &[u8], place: usize) -> usize
    ensures { page result room.new ≡ added (version_words s.now place) (page at room.old) }
{
    put_found(room, at, s, find_mark(s, place))
}

// Adds why a line is out of order: it stands where a card has to start, or VERSION, or inside a card.
fn put_between(room: &mut [u8], at: usize, s: &[u8], place: usize) -> usize
    ensures { page result room.new ≡ added (between_words s.now place) (page at room.old) }
{
    if place == 0 {
        return put_all(room, at, b"a card starts with BEGIN:VCARD");
    }
    if closes_with(s, place, b"END:VCARD\r\n") {
        return put_all(room, at, b"a card starts with BEGIN:VCARD");
    }
    if closes_with(s, place, b"BEGIN:VCARD\r\n") {
        return put_version(room, at, s, place);
    }
    put_inner(room, at, s, place)
}

// Adds why a line is out of order, or that the last card has no END.
fn put_order(room: &mut [u8], at: usize, s: &[u8], place: usize) -> usize
    ensures { page result room.new ≡ added (order_words s.now place) (page at room.old) }
{
    if place >= s.len() {
        return put_all(room, at, b"the last card has no END:VCARD");
    }
    put_between(room, at, s, place)
}

// Adds why octets are refused at a place, by what stands there, or in the words of the refusal.
#[tactic(auto, using(numbers::proofs::Reasons::other_reason), unfolding(crate::specs::Reasons::reason, octets::specs::Ascii::octets))]
pub fn put_reason(room: &mut [u8], at: usize, s: &[u8], r: Refusal) -> usize
    ensures { page result room.new ≡ added (reason s.now (number r.0) r.1) (page at room.old) }
{
    let Refusal(reason, place) = r;
    match reason {
        Reason::Order => put_order(room, at, s, place),
        _ if is_utf16(s) => put_all(room, at, b"UTF-16 text, and a vCard is UTF-8"),
        Reason::LoneCrOrLf => put_line_end(room, at, s, place),
        _ => cabbook_messages::words::put_words(room, at, reason),
    }
}
