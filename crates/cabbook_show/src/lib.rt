// `show`: the cards of a file as a table, from the records.
#![tactic(auto)]

mod dates;
mod values;

ghost use Rattle.std.specs.Prelude.{length, ◌+◌, ◌≤◌, ◌<◌, IfOk};
ghost use Rattle.numbers.specs.Limits as limit;
ghost use Rattle.cabbook_output.specs.Ends.{Status};
ghost use Rattle.cabbook_show.specs.Records.{most_numbers};

use cabbook_output::{Ended, File, Unwritten};
use cabbook_tables::{fields, status};
use numbers::{field, limit, property};
use octets::indices::wide_number;
use octets::slices::part;
use program_host::{Host, STDERR, STDOUT};
use property_table::Edition;

// The most lines of an input: a line has at least four octets, as `A:` and CR LF.
const LINES: usize = 4096;

// The numbers of their records.
const NUMBERS: usize = LINES * limit::RECORD_LENGTH;

// More octets than the rows of one line have: each of its octets in digits, and each of its lines in the value's column.
const PAGE: usize = 65536 * 8;

// Where the name ends in a line with a group and a name of these lengths.
fn name_end(group_length: u32, name_length: u32) -> usize {
    let name = name_length as usize;
    if group_length == 0 {
        return name;
    }
    group_length as usize + 1 + name
}

// The bit of a property that a card has once, 0 for any other.
fn once_bit(number: usize) -> u64 {
    match number {
        property::KIND => 1,
        property::N => 2,
        property::BDAY => 4,
        property::ANNIVERSARY => 8,
        property::GENDER => 16,
        property::PRODID => 32,
        property::REV => 64,
        property::UID => 128,
        _ => 0,
    }
}

// Adds what stands behind a value: that it is another form of a property that the card has once, and the label of an address.
fn put_remarks(room: &mut [u8], at: usize, line: &[u8], r: &[u32], again: bool) -> usize {
    if r.len() < limit::RECORD_LENGTH {
        return at;
    }
    let end = program_output::put_unless(room, at, !again, b"  (alternative)");
    if wide_number(r[field::PROPERTY]) != property::ADR {
        return end;
    }
    values::put_label(room, end, line, name_end(r[field::GROUP], r[field::NAME]))
}

// Adds the row of a record.
fn put_row(room: &mut [u8], copy: &[u8], r: &[u32], again: bool) -> usize {
    if r.len() < limit::RECORD_LENGTH {
        return 0;
    }
    let start = r[field::START];
    let value_start = r[field::VALUE];
    let fields_end = fields::put_fields(
        room,
        0,
        copy,
        start,
        r[field::GROUP],
        r[field::NAME],
        value_start,
    );
    let end = wide_number(start) + wide_number(r[field::LENGTH]);
    let value = part(copy, wide_number(value_start), end);
    let value_end = values::put_value(room, fields_end, value, r[field::KIND]);
    let line = part(copy, wide_number(start), end);
    let remarks_end = put_remarks(room, value_end, line, r, again);
    program_output::put(room, remarks_end, b'\n')
}

// What came so far: the bits of the properties that this card has once, and the cards.
#[derive(Clone, Copy, Debug, PartialEq, Eq)]
struct Shown {
    seen: u64,
    cards: usize,
}

// Prints the row of a record, or at a BEGIN the line above a card's rows.
fn print_record(
    host: &mut Host,
    room: &mut [u8],
    copy: &[u8],
    r: &[u32],
    shown: Shown,
) -> Result<Shown, Unwritten>
    requires { shown.cards ≤ most_numbers }
    ensures { IfOk result (λ next. next.cards ≤ shown.cards + 1) }
{
    if r.len() < limit::RECORD_LENGTH {
        return Ok(shown);
    }
    let number = wide_number(r[field::PROPERTY]);
    if number == property::BEGIN {
        let n = fields::put_card(room, 0, shown.cards + 1);
        cabbook_output::send(host, STDOUT, room, n)?;
        return Ok(Shown {
            seen: 0,
            cards: shown.cards + 1,
        });
    }
    if fields::is_frame(r[field::PROPERTY]) {
        return Ok(shown);
    }
    let bit = once_bit(number);
    let n = put_row(room, copy, r, shown.seen & bit != 0);
    cabbook_output::send(host, STDOUT, room, n)?;
    Ok(Shown {
        seen: shown.seen | bit,
        cards: shown.cards,
    })
}

// Prints the rows of all records, as long as they can be written.
fn print_rows(
    host: &mut Host,
    room: &mut [u8],
    copy: &[u8],
    records: &[u32],
) -> Result<(), Unwritten>
    requires { length records.now ≤ most_numbers }
{
    let mut shown = Shown { seen: 0, cards: 0 };
    let mut at: usize = 0;
    while limit::RECORD_LENGTH <= records.len() - at {
        let end = at + limit::RECORD_LENGTH;
        shown = print_record(host, room, copy, &records[at..end], shown)?;
        at = end;
    }
    Ok(())
}

// Prints the names of the columns and the rows of all records.
fn print_table(host: &mut Host, copy: &[u8], records: &[u32]) -> Result<(), Unwritten>
    requires { length records.now ≤ most_numbers }
{
    let mut room = [0u8; PAGE];
    let n = fields::put_titles(&mut room, 0);
    cabbook_output::send(host, STDOUT, &room, n)?;
    print_rows(host, &mut room, copy, records)
}

// Prints the table of a file, read in an edition, or what is to be known of a refused one, and answers the exit status.
pub fn show(host: &mut Host, edition: Edition, file: File) -> Ended
    ensures { IfOk result Status }
{
    let mut copy = [0u8; limit::OCTETS];
    let mut records = [0u32; NUMBERS];
    match reader::read(edition, file.octets, &mut copy, &mut records) {
        Ok(counts) => {
            let n = counts.lines.min(LINES) * limit::RECORD_LENGTH;
            print_table(host, &copy, &records[..n])?;
            Ok(status::ACCEPTED)
        }
        Err(r) => cabbook_output::print_refusal(host, STDERR, file, r),
    }
}
