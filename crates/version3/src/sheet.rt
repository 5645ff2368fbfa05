// The lines of a card, each as the other version has it and folded: written to rooms of their places, BEGIN and VERSION first, and then joined.
ghost use Rattle.std.specs.Prelude.{◌≡◌, false, ◌+◌, ◌*◌, ◌≤◌, length};
ghost use Rattle.numbers.specs.Limits as limit;
ghost use Rattle.octets.specs.Room.{filled, fill_bounded, written};
ghost use Rattle.octets.specs.Classes.{Classes};
ghost use Rattle.line_folds.specs.Folds.{unfolded};
ghost use Rattle.property_table.specs.Rows.{Lists};
ghost use Rattle.folder_line.specs.Pieces.{folded, Clean};
ghost use Rattle.version3.specs.Card.{turn_number, turn_of_row, clear, card_text, Formed};
ghost use Rattle.version3.specs.Places.{Within, Lent, joined_by, AddedBy, PlacedBy, Halfway, SheetBy, ReachedBy, TriedBy, Attempt};

use numbers::refusal::{Reason, Refusal};
use numbers::{limit, property};
use octets::classes::ClassTable;
use property_table::Edition;
use property_table::rows::PropertyTable;
use version3_parameters::Way;

// An input of at most so many octets is written with less room, since that room is made at each call.
const SMALL: usize = 672;

const SHORT: usize = 1024;

// The longest line for which there is room at first in any other input, and then.
const LINE: usize = 2048;

const LONG_LINE: usize = 6144;

const ANY_LINE: usize = limit::OCTETS;

// Room for such a line as the other version has it, and for any line.
const SMALL_FORM: usize = 3 * SMALL + 20;

const SHORT_FORM: usize = 3 * SHORT + 20;

const FORM: usize = 3 * LINE + 20;

const LONG_FORM: usize = 3 * LONG_LINE + 20;

const ANY_FORM: usize = 3 * ANY_LINE + 20;

// Room for the lines of the first place, and for those of the second.
const HEAD: usize = 64;

// Room for the other lines of a small input, and of a short one: over twice as much as it has, since a line grows to twice its length at most
// and is folded.
const SMALL_CARD: usize = 1536;

const SHORT_CARD: usize = 2304;

// Room for the lines of any card, in any place.
const CARD: usize = limit::OCTETS;

// The places of lines in a card: BEGIN first, VERSION second, then all others.
#[derive(Clone, Copy, Debug, PartialEq, Eq)]
pub enum Turn {
    First,
    Second,
    Others,
}

// A line as the other version has it: its place in the card, and how long it is.
#[derive(Clone, Copy, Debug, PartialEq, Eq)]
pub struct Form {
    pub turn: Turn,
    pub length: usize,
}

// The place of a line of the row.
fn turn_of(row: usize) -> Turn
    ensures { turn_number result ≡ turn_of_row row }
{
    match row {
        property::BEGIN => Turn::First,
        property::VERSION => Turn::Second,
        _ => Turn::Others,
    }
}

// How many octets of the first n are written: none where they are not whole characters without controls.
fn clear_length(t: &ClassTable, d: &[u8]) -> usize
    requires { Classes t.now }
    ensures { result ≡ length (clear d.now) }
{
    let bad = utf8_screening::units::first_bad(t, d, false);
    if bad < d.len() {
        return 0;
    }
    d.len()
}

// Writes the line s as the other version has it to the start of d.
fn form_line(way: Way, t: &ClassTable, rows: &PropertyTable, s: &[u8], d: &mut [u8]) -> Form
    requires classes { Classes t.now × Lists rows.now }
    requires s_len_bound { (length s.now ≤ limit.octets) × (3 * length s.now + 20 ≤ length d.old) }
    ensures { Formed way s.now result d.new }
{
    match card_line::parts_of(t, rows, Edition::First, s) {
        Err(_) => Form {
            turn: Turn::Others,
            length: 0,
        },
        Ok(x) => {
            let n = version3_line::put_line(way, t, s, x, d);
            let length = clear_length(t, &d[..n]);
            Form {
                turn: turn_of(x.row),
                length,
            }
        }
    }
}

// Writes the logical line s, unfolded, as the other version has it to the start of d.
fn form_span(
    way: Way,
    t: &ClassTable,
    rows: &PropertyTable,
    s: &[u8],
    folds: bool,
    scratch: &mut [u8],
    d: &mut [u8],
) -> Form
    requires classes { Classes t.now × Lists rows.now }
    requires s_len_bound { (length s.now ≤ limit.octets) × (length s.now ≤ length scratch.old) × (3 * length s.now + 20 ≤ length d.old) }
    requires s_value { folds ≡ false → unfolded s.now ≡ s.now }
    ensures { Formed way (unfolded s.now) result d.new }
{
    if !folds {
        return form_line(way, t, rows, s, d);
    }
    let n = line_unfolding::unfold(s, scratch);
    form_line(way, t, rows, &scratch[..n], d)
}

// How many octets were written to the rooms of the three places.
#[derive(Clone, Copy, Debug, PartialEq, Eq)]
pub struct Ends {
    pub first: usize,
    pub second: usize,
    pub others: usize,
}

// What was written when the lines came to their end, or to a line that is too long for the rooms of a line: where it starts, and how long it is.
#[derive(Clone, Copy, Debug, PartialEq, Eq)]
pub enum Reached {
    End(Ends),
    Long(usize, usize, Ends),
}

// Writes the line l folded to the room, behind its first w octets, and answers where it ends there; nothing where it does not fit.
fn add_line(l: &[u8], w: usize, room: &mut [u8]) -> Option<usize>
    requires { Clean l.now × (w ≤ length room.old) × (length room.old ≤ limit.octets) }
    ensures { AddedBy (folded l.now) w room.old room.new result }
{
    if limit::OCTETS < l.len() {
        return None;
    }
    let n = folder_line::cutting::measure(l);
    if room.len() - w < n {
        return None;
    }
    let m = folder_line::folding::fold_line(l, &mut room[w..]);
    Some(w + m)
}

// Writes the line l folded to the room of its place, and answers how many octets stand in the rooms then; nothing where it does not fit.
fn place_line(
    turn: Turn,
    l: &[u8],
    e: Ends,
    first: &mut [u8],
    second: &mut [u8],
    others: &mut [u8],
) -> Option<Ends>
    requires { Clean l.now × Within e first.old second.old others.old }
    ensures { PlacedBy (turn_number turn) (folded l.now) e first.old second.old others.old first.new second.new others.new result }
{
    match turn {
        Turn::First => {
            let n = add_line(l, e.first, first)?;
            Some(Ends { first: n, ..e })
        }
        Turn::Second => {
            let n = add_line(l, e.second, second)?;
            Some(Ends { second: n, ..e })
        }
        Turn::Others => {
            let n = add_line(l, e.others, others)?;
            Some(Ends { others: n, ..e })
        }
    }
}

// Writes the lines from `from` on to the rooms of their places, up to the first that has more than so many octets; nothing is answered where some room
// is too small.
fn place_lines(
    way: Way,
    t: &ClassTable,
    rows: &PropertyTable,
    s: &[u8],
    from: usize,
    ends: Ends,
    most: usize,
    scratch: &mut [u8],
    form: &mut [u8],
    first: &mut [u8],
    second: &mut [u8],
    others: &mut [u8],
) -> Option<Reached>
    requires classes { Classes t.now × Lists rows.now }
    requires s_len_bound { (length s.now ≤ limit.octets) × (most ≤ length scratch.old) × (3 * most + 20 ≤ length form.old) }
    requires lent { Lent first.old second.old others.old }
    requires halfway { Halfway way s.now first.old second.old others.old from ends }
    ensures { ReachedBy way s.now most first.new second.new others.new result }
{
    let mut at = from;
    let mut e = ends;
    while at < s.len() {
        let span = line_folds::spans::line_at(s, at);
        let end = span.end;
        let folds = span.cr != end;
        if most < end - at {
            return Some(Reached::Long(at, end - at, e));
        }
        let f = form_span(way, t, rows, &s[at..end], folds, scratch, form);
        let length = f.length;
        e = place_line(f.turn, &form[..length], e, first, second, others)?;
        at = end + 2;
    }
    Some(Reached::End(e))
}

// The same with room for lines of at most LINE octets, which is made here.
fn place_with<const LINE: usize, const FORM: usize>(
    way: Way,
    t: &ClassTable,
    rows: &PropertyTable,
    s: &[u8],
    from: usize,
    ends: Ends,
    first: &mut [u8],
    second: &mut [u8],
    others: &mut [u8],
) -> Option<Reached>
    requires classes { Classes t.now × Lists rows.now }
    requires s_len_bound { (length s.now ≤ limit.octets) × (LINE ≤ limit.octets) × (FORM ≡ 3 * LINE + 20) }
    requires lent { Lent first.old second.old others.old }
    requires halfway { Halfway way s.now first.old second.old others.old from ends }
    ensures { ReachedBy way s.now LINE first.new second.new others.new result }
{
    let mut scratch = [0u8; LINE];
    let mut form = [0u8; FORM];
    place_lines(
        way,
        t,
        rows,
        s,
        from,
        ends,
        LINE,
        &mut scratch,
        &mut form,
        first,
        second,
        others,
    )
}

// The same with room for every line.
fn place_any(
    way: Way,
    t: &ClassTable,
    rows: &PropertyTable,
    s: &[u8],
    from: usize,
    ends: Ends,
    first: &mut [u8],
    second: &mut [u8],
    others: &mut [u8],
) -> Option<Ends>
    requires classes { Classes t.now × Lists rows.now }
    requires s_len_bound { length s.now ≤ limit.octets }
    requires lent { Lent first.old second.old others.old }
    requires halfway { Halfway way s.now first.old second.old others.old from ends }
    ensures { SheetBy way s.now first.new second.new others.new result }
{
    match place_with::<ANY_LINE, ANY_FORM>(way, t, rows, s, from, ends, first, second, others)? {
        Reached::End(e) => Some(e),
        Reached::Long(..) => None,
    }
}

// Writes the lines from a long one of n octets on to the rooms of their places.
fn place_rest(
    way: Way,
    t: &ClassTable,
    rows: &PropertyTable,
    s: &[u8],
    from: usize,
    n: usize,
    ends: Ends,
    first: &mut [u8],
    second: &mut [u8],
    others: &mut [u8],
) -> Option<Ends>
    requires classes { Classes t.now × Lists rows.now }
    requires s_len_bound { length s.now ≤ limit.octets }
    requires lent { Lent first.old second.old others.old }
    requires halfway { Halfway way s.now first.old second.old others.old from ends }
    ensures { SheetBy way s.now first.new second.new others.new result }
{
    if LONG_LINE < n {
        return place_any(way, t, rows, s, from, ends, first, second, others);
    }
    match place_with::<LONG_LINE, LONG_FORM>(way, t, rows, s, from, ends, first, second, others)? {
        Reached::End(e) => Some(e),
        Reached::Long(at, _, e) => place_any(way, t, rows, s, at, e, first, second, others),
    }
}

// Writes the lines of a card to the rooms of their places: those before the first that has more than so many octets, and then the others, so that
// no line is written twice.
fn place_card(
    way: Way,
    s: &[u8],
    most: usize,
    scratch: &mut [u8],
    form: &mut [u8],
    first: &mut [u8],
    second: &mut [u8],
    others: &mut [u8],
) -> Option<Ends>
    requires s_len_bound { (length s.now ≤ limit.octets) × (most ≤ length scratch.old) × (3 * most + 20 ≤ length form.old) }
    requires lent { Lent first.old second.old others.old }
    ensures { SheetBy way s.now first.new second.new others.new result }
{
    let t = octets::classes::table();
    let rows = property_table::table();
    let none = Ends {
        first: 0,
        second: 0,
        others: 0,
    };
    match place_lines(
        way, &t, &rows, s, 0, none, most, scratch, form, first, second, others,
    )? {
        Reached::End(e) => Some(e),
        Reached::Long(at, n, e) => place_rest(way, &t, &rows, s, at, n, e, first, second, others),
    }
}

// Writes what stands in the three places one after the other: 16 where that is over 16,384 octets, 15 where out is too small for it, else the
// octets written.
fn join(
    e: Ends,
    first: &[u8],
    second: &[u8],
    others: &[u8],
    out: &mut [u8],
) -> Result<usize, Refusal>
    requires { Within e first.now second.now others.now }
    ensures { filled (written result) out.new ≡ fill_bounded (joined_by e first.now second.now others.now) out.old }
{
    let a = e.first;
    let b = e.second;
    let c = e.others;
    let start = a + b;
    let n = start + c;
    if limit::OCTETS < n {
        return Err(Refusal(Reason::FormTooLong, limit::OCTETS));
    }
    if out.len() < n {
        return Err(Refusal(Reason::Room, n));
    }
    octets::copying::copy_in(out, &first[..a]);
    octets::copying::copy_in(&mut out[a..], &second[..b]);
    octets::copying::copy_in(&mut out[start..], &others[..c]);
    Ok(n)
}

// Writes the card with rooms for its places, and at first for a line of at most so many octets.
fn write_in(
    way: Way,
    s: &[u8],
    most: usize,
    scratch: &mut [u8],
    form: &mut [u8],
    first: &mut [u8],
    second: &mut [u8],
    others: &mut [u8],
    out: &mut [u8],
) -> Option<Result<usize, Refusal>>
    requires s_len_bound { (length s.now ≤ limit.octets) × (most ≤ length scratch.old) × (3 * most + 20 ≤ length form.old) }
    requires lent { Lent first.old second.old others.old }
    ensures { TriedBy way s.now (length first.old) (length second.old) (length others.old) out.old out.new result }
{
    let e = place_card(way, s, most, scratch, form, first, second, others)?;
    Some(join(e, first, second, others, out))
}

// The same with rooms that are made here: for a line of at most LINE octets at first and its form, and for the lines of the first place, the
// second and the others.
fn write_with<const LINE: usize, const FORM: usize, const HEAD: usize, const REST: usize>(
    way: Way,
    s: &[u8],
    out: &mut [u8],
) -> Option<Result<usize, Refusal>>
    requires s_len_bound { (length s.now ≤ limit.octets) × (LINE ≤ limit.octets) × (FORM ≡ 3 * LINE + 20) }
    requires lent { (HEAD ≤ limit.octets) × (REST ≤ limit.octets) }
    ensures { TriedBy way s.now HEAD HEAD REST out.old out.new result }
{
    let mut scratch = [0u8; LINE];
    let mut form = [0u8; FORM];
    let mut first = [0u8; HEAD];
    let mut second = [0u8; HEAD];
    let mut others = [0u8; REST];
    write_in(
        way,
        s,
        LINE,
        &mut scratch,
        &mut form,
        &mut first,
        &mut second,
        &mut others,
        out,
    )
}

// Writes the card with room by the length of the input: BEGIN and VERSION of a card that was judged good have it.
fn write_by_length(way: Way, s: &[u8], out: &mut [u8]) -> Option<Result<usize, Refusal>>
    requires { length s.now ≤ limit.octets }
    ensures { Attempt way s.now out.old out.new result }
{
    if s.len() <= SMALL {
        return write_with::<SMALL, SMALL_FORM, HEAD, SMALL_CARD>(way, s, out);
    }
    if s.len() <= SHORT {
        return write_with::<SHORT, SHORT_FORM, HEAD, SHORT_CARD>(way, s, out);
    }
    write_with::<LINE, FORM, HEAD, CARD>(way, s, out)
}

// Writes the card with room for any BEGIN and VERSION.
fn write_all(way: Way, s: &[u8], out: &mut [u8]) -> Result<usize, Refusal>
    requires { length s.now ≤ limit.octets }
    ensures { filled (written result) out.new ≡ fill_bounded (card_text way s.now) out.old }
{
    match write_with::<LINE, FORM, CARD, CARD>(way, s, out) {
        Some(answer) => answer,
        None => Err(Refusal(Reason::FormTooLong, limit::OCTETS)),
    }
}

// Writes the card: 16 where it has over 16,384 octets, 15 where out is too small for it, else the octets written.
pub fn write_card(way: Way, s: &[u8], out: &mut [u8]) -> Result<usize, Refusal>
    requires { length s.now ≤ limit.octets }
    ensures { filled (written result) out.new ≡ fill_bounded (card_text way s.now) out.old }
{
    match write_by_length(way, s, out) {
        Some(answer) => answer,
        None => write_all(way, s, out),
    }
}
