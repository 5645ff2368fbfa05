// Why a line is not taken in from version 3, or not given out to it, in words for a clerk, by what stands there.
ghost use Rattle.std.specs.Prelude.{◌<◌};
ghost use Rattle.numbers.specs.Kinds as kinds;
ghost use Rattle.octets.specs.Classes.{Classes};
ghost use Rattle.card_line.specs.Parts.{Accepted};

use cabbook_messages::{sentences, wants, words};
use card_line::Parts;
use numbers::refusal::{Reason, Refusal};
use numbers::{kind, limit, property};
use octets::cases::same_name;
use octets::classes::ClassTable;
use octets::slices::part;
use program_output::put_all;
use property_table::Edition;
use value_kinds::Fault;
use version3_judge::{Phase, Set};
use version3_parameters::Way;

// The most parts of N and of ADR.
const NAME_PARTS: usize = 5;

const ADDRESS_PARTS: usize = 7;

// Adds the words for the way that a card goes.
fn put_by(room: &mut [u8], at: usize, way: Way, inward: &[u8], outward: &[u8]) -> usize {
    match way {
        Way::Inward => put_all(room, at, inward),
        Way::Outward => put_all(room, at, outward),
    }
}

// Before the first line.
fn nothing() -> Set {
    Set {
        phase: Phase::BeforeBegin,
        has_fn: false,
        has_n: false,
        has_version: false,
    }
}

// What is known of a card after its first lines.
fn known_after(way: Way, lines: &[u8]) -> Set {
    if limit::OCTETS < lines.len() {
        return nothing();
    }
    let t = octets::classes::table();
    let rows = property_table::table();
    let steps = value_automaton::scanner::table();
    match version3_judge::walk(way, &t, &rows, &steps, lines) {
        Ok(c) => c,
        Err(_) => nothing(),
    }
}

// Adds why a line is out of order.
fn put_order(room: &mut [u8], at: usize, row: usize) -> usize {
    if row == property::BEGIN {
        return put_all(
            room,
            at,
            b"BEGIN inside a card: the card before it has no END",
        );
    }
    put_all(room, at, b"a card starts with BEGIN:VCARD")
}

// Adds which line a card has not at its END.
fn put_missing(room: &mut [u8], at: usize, way: Way, c: Set) -> usize {
    if !c.has_fn {
        return put_all(room, at, b"the card has no FN line, the name to show");
    }
    if !c.has_n {
        return put_by(
            room,
            at,
            way,
            b"the card has no N line, the parts of the name",
            b"the card has no N line, and version 3 wants one",
        );
    }
    put_all(room, at, b"the card has no line VERSION:3.0")
}

// Adds what is wrong with BEGIN, which stands first and once.
fn put_begin(room: &mut [u8], at: usize, way: Way, c: Set) -> usize {
    if c.phase == Phase::BeforeBegin {
        return put_all(room, at, b"BEGIN wants VCARD");
    }
    put_by(
        room,
        at,
        way,
        b"a second card, and v3in takes in one card a file",
        b"a second card, and v3out gives out one card a file",
    )
}

// Adds what is wrong with VERSION, or with END.
fn put_frame(room: &mut [u8], at: usize, way: Way, c: Set, row: usize, value: &[u8]) -> usize {
    if row == property::BEGIN {
        return put_begin(room, at, way, c);
    }
    if row == property::VERSION {
        if c.has_version {
            return put_all(room, at, b"VERSION again, and a card has it once");
        }
        return put_all(
            room,
            at,
            b"VERSION wants 3.0: v3in takes in cards of version 3.0",
        );
    }
    if !same_name(value, b"VCARD") {
        return put_all(room, at, b"END wants VCARD");
    }
    put_missing(room, at, way, c)
}

// Adds that a property is not of those that go over.
fn put_stranger(room: &mut [u8], at: usize, way: Way) -> usize {
    put_by(
        room,
        at,
        way,
        b" is not taken in: FN, N, TEL, EMAIL, ADR, NOTE, TITLE, ROLE, ORG, GEO and URL are",
        b" is not given out: FN, N, TEL, EMAIL, ADR, NOTE, TITLE, ROLE, ORG, GEO and URL are",
    )
}

// Adds what is wrong with a value of parts: there are too many, or an escape is none.
fn put_pieces(room: &mut [u8], at: usize, value: &[u8], most: usize, words: &[u8]) -> usize {
    let n = version3_text::count_semicolons(value);
    if n < most {
        return put_all(room, at, b" wants \\ , ; n or N after '\\'");
    }
    let start = put_all(room, at, words);
    sentences::put_amount(room, start, n, b" ';'")
}

// Adds what a value should be where it breaks its kind.
fn put_wants(room: &mut [u8], at: usize, row: usize, kind: usize, value: &[u8]) -> usize
    requires { kind < kinds.count }
{
    let parts = cabbook_positions::parts(value);
    let steps = value_automaton::scanner::table();
    let fault = value_automaton::value_fault(&steps, Edition::First, kind, value);
    match fault {
        Fault::Fits => wants::put_wants(room, at, row, kind, false, parts),
        Fault::Breaks(octet) => {
            let waits = cabbook_positions::ends_in_escape(part(value, 0, octet));
            wants::put_wants(room, at, row, kind, waits, parts)
        }
    }
}

// Adds what the value of a line should be, which is taken in.
fn put_value(room: &mut [u8], at: usize, row: usize, kind: usize, value: &[u8]) -> usize
    requires { kind < kinds.count }
{
    if kind == kind::NAME {
        return put_pieces(
            room,
            at,
            value,
            NAME_PARTS,
            b" has at most five parts, split by four ';', and here are ",
        );
    }
    if kind == kind::ADDRESS {
        return put_pieces(
            room,
            at,
            value,
            ADDRESS_PARTS,
            b" has at most seven parts, split by six ';', and here are ",
        );
    }
    put_wants(room, at, row, kind, value)
}

// Adds what is wrong with GEO.
fn put_geo(room: &mut [u8], at: usize, way: Way, kind: usize) -> usize {
    if kind == kind::TEXT {
        return put_by(
            room,
            at,
            way,
            b" with VALUE=text is not taken in",
            b" with VALUE=text is not given out",
        );
    }
    put_by(
        room,
        at,
        way,
        b" wants two numbers split by ';', as 52.516;13.378",
        b" is given out as geo: and two numbers split by ',', as geo:52.516,13.378, with nothing behind them",
    )
}

// Adds what is wrong with a line of a property that goes over: its PREF, or its value.
fn put_common(room: &mut [u8], at: usize, way: Way, t: &ClassTable, line: &[u8], x: Parts) -> usize
    requires classes { Classes t.now }
    requires accepted { Accepted line.now x.name_end × (x.kind < kinds.count) }
{
    let name_end = x.name_end;
    if !version3_parameters::do_prefs_fit(way, t, line, name_end) {
        return put_by(
            room,
            at,
            way,
            b" has PREF, which version 3 writes as TYPE=pref",
            b" has a PREF that is not PREF=1 once, and version 3 has TYPE=pref alone",
        );
    }
    if x.row == property::GEO {
        return put_geo(room, at, way, x.kind);
    }
    put_value(
        room,
        at,
        x.row,
        x.kind,
        part(line, x.value_start, line.len()),
    )
}

// Adds what is wrong with a line that frames no card, behind its name.
fn put_inner(
    room: &mut [u8],
    at: usize,
    way: Way,
    c: Set,
    t: &ClassTable,
    line: &[u8],
    x: Parts,
) -> usize
    requires classes { Classes t.now }
    requires accepted { Accepted line.now x.name_end × (x.kind < kinds.count) }
{
    let row = x.row;
    match row {
        property::N => {
            if c.has_n {
                return put_all(room, at, b" again, and version 3 has it once");
            }
            put_common(room, at, way, t, line, x)
        }
        property::FN
        | property::TEL
        | property::EMAIL
        | property::ADR
        | property::NOTE
        | property::TITLE
        | property::ROLE
        | property::ORG
        | property::GEO
        | property::URL => put_common(room, at, way, t, line, x),
        _ => put_stranger(room, at, way),
    }
}

// Adds what is wrong with a line of these parts.
fn put_parts(
    room: &mut [u8],
    at: usize,
    way: Way,
    c: Set,
    t: &ClassTable,
    line: &[u8],
    x: Parts,
    reason: Reason,
) -> usize
    requires classes { Classes t.now }
    requires accepted { Accepted line.now x.name_end × (x.kind < kinds.count) }
{
    if reason == Reason::Order {
        return put_order(room, at, x.row);
    }
    if property_table::is_framing(x.row) {
        let value = part(line, x.value_start, line.len());
        return put_frame(room, at, way, c, x.row, value);
    }
    let name_end = program_visible::put_visible(room, at, part(line, 0, x.name_end));
    put_inner(room, name_end, way, c, t, line, x)
}

// Adds what is wrong with a line, where so much is known of the card before it.
fn put_line(room: &mut [u8], at: usize, way: Way, c: Set, line: &[u8], reason: Reason) -> usize {
    if limit::OCTETS < line.len() {
        return words::put_words(room, at, reason);
    }
    let t = octets::classes::table();
    let rows = property_table::table();
    match card_line::parts_of(&t, &rows, Edition::First, line) {
        Ok(x) => put_parts(room, at, way, c, &t, line, x, reason),
        Err(_) => words::put_words(room, at, reason),
    }
}

// Adds what is wrong with a raw line, where so much is known of the card before it.
fn put_raw(room: &mut [u8], at: usize, way: Way, c: Set, raw: &[u8], reason: Reason) -> usize {
    if limit::OCTETS < raw.len() {
        return words::put_words(room, at, reason);
    }
    let mut text = [0u8; limit::OCTETS];
    let n = line_unfolding::unfold(raw, &mut text);
    put_line(room, at, way, c, part(&text, 0, n), reason)
}

// Adds why a card is not taken in or given out, at the start of one of its lines.
pub(crate) fn put_why(room: &mut [u8], at: usize, way: Way, s: &[u8], r: Refusal) -> usize {
    let Refusal(reason, place) = r;
    let start = cabbook_positions::line_start(s, place);
    let end = line_folds::spans::line_end(s, start);
    let c = known_after(way, part(s, 0, start));
    put_raw(room, at, way, c, part(s, start, end), reason)
}
