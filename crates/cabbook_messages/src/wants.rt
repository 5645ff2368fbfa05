// What the value of a line should be, in words that follow the property's name.
ghost use Rattle.std.specs.Prelude.{◌≡◌};
ghost use Rattle.program_output.specs.Pages.{page, added};
ghost use Rattle.cabbook_messages.specs.Wants.{is_escape, parts_wants, other_wants, kind_wants, value_wants, wants};

use crate::sentences;
use numbers::{kind, property};
use program_output::put_all;

// Whether a value of a kind breaks in an escape, where a backslash stands before the place or not: the kinds of text have escapes.
fn is_escape(kind: usize, after_backslash: bool) -> bool
    ensures { result ≡ is_escape kind after_backslash }
{
    if !after_backslash {
        return false;
    }
    if kind == kind::URI {
        return false;
    }
    kind <= kind::GENDER
}

// Adds how many parts a value should have, and how many it has.
fn put_parts(room: &mut [u8], at: usize, words: &[u8], parts: usize) -> usize
    ensures { page result room.new ≡ added (parts_wants words.now parts) (page at room.old) }
{
    let words_end = put_all(room, at, words);
    sentences::put_amount(room, words_end, parts, b"")
}

// Adds what a value of a kind without text should be.
fn put_other_wants(room: &mut [u8], at: usize, kind: usize) -> usize
    ensures { page result room.new ≡ added (other_wants kind) (page at room.old) }
{
    match kind {
        kind::PIDMAP => put_all(room, at, b" wants digits, ';' and a URI"),
        kind::DATE => put_all(
            room,
            at,
            b" wants a date of the calendar, a time or both, as 19850412, 1985-04, --0412, T1022 or 19850412T1022Z",
        ),
        kind::TIMESTAMP => put_all(
            room,
            at,
            b" wants a date of the calendar with its time, as 19961022T140000Z",
        ),
        kind::OFFSET => put_all(room, at, b" wants an offset, as -0500 or +01"),
        _ => put_all(room, at, b" wants another value"),
    }
}

// Adds what a value of a kind should be that has so many parts.
fn put_kind_wants(room: &mut [u8], at: usize, kind: usize, parts: usize) -> usize
    ensures { page result room.new ≡ added (kind_wants kind parts) (page at room.old) }
{
    match kind {
        kind::TEXT => put_all(room, at, b" wants text, in which a comma is written \\,"),
        kind::URI => put_all(
            room,
            at,
            b" wants a URI, as urn:uuid:.. or tel:.. or https:..",
        ),
        kind::NAME => put_parts(
            room,
            at,
            b" has five parts split by ';' (in edition 2 up to seven), here ",
            parts,
        ),
        kind::ADDRESS => put_parts(
            room,
            at,
            b" has seven parts split by ';' (in edition 2 up to eighteen), here ",
            parts,
        ),
        kind::ORGANIZATION => put_all(
            room,
            at,
            b" wants parts split by ';', in which a comma is written \\,",
        ),
        kind::GENDER => put_all(
            room,
            at,
            b" wants M, F, O, N, U or nothing, then perhaps ';' and text without a bare ','",
        ),
        _ => put_other_wants(room, at, kind),
    }
}

// Adds what a value of a kind and of so many parts should be where it breaks, after a backslash or not.
fn put_value_wants(
    room: &mut [u8],
    at: usize,
    kind: usize,
    after_backslash: bool,
    parts: usize,
) -> usize
    ensures { page result room.new ≡ added (value_wants kind after_backslash parts) (page at room.old) }
{
    if is_escape(kind, after_backslash) {
        return put_all(room, at, b" wants \\ , ; n or N after '\\'");
    }
    put_kind_wants(room, at, kind, parts)
}

// Adds what the value of a row and kind and of so many parts should be where it breaks, after a backslash or not.
pub fn put_wants(
    room: &mut [u8],
    at: usize,
    row: usize,
    kind: usize,
    after_backslash: bool,
    parts: usize,
) -> usize
    ensures { page result room.new ≡ added (wants row kind after_backslash parts) (page at room.old) }
{
    match row {
        property::BEGIN => put_all(room, at, b" wants VCARD"),
        property::END => put_all(room, at, b" wants VCARD"),
        property::VERSION => put_all(room, at, b" wants 4.0: this unit takes version 4.0 alone"),
        _ => put_value_wants(room, at, kind, after_backslash, parts),
    }
}
