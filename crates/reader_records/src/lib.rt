// The second pass over an accepted input: its copy, and a record of eight numbers for each line.
#![tactic(auto)]

ghost use Rattle.std.specs.Prelude.{◌≡◌, false, ◌++◌, ℕ, ◌+◌, ◌≤◌, length, take, drop};
ghost use Rattle.numbers.specs.Limits as limit;
ghost use Rattle.octets.specs.Classes.{Classes};
ghost use Rattle.octets.specs.Room.{overlay};
ghost use Rattle.line_folds.specs.Folds.{fold_at, unfolded};
ghost use Rattle.line_folds.specs.Logical.{raw_lines};
ghost use Rattle.property_table.specs.Rows.{Lists};
ghost use Rattle.reader_records.specs.Records.{numbers, record_of, records_from};

use numbers::limit;
use octets::classes::ClassTable;
use property_table::Edition;
use property_table::rows::PropertyTable;

// One record: eight numbers.
#[derive(Clone, Copy, Debug, PartialEq, Eq)]
pub struct Record {
    pub property: u32,
    pub start: u32,
    pub length: u32,
    pub group_length: u32,
    pub name_length: u32,
    pub param_count: u32,
    pub value_start: u32,
    pub kind: u32,
}

// The record of the logical line l, which starts at w in the copy.
fn record_of(t: &ClassTable, rows: &PropertyTable, edition: Edition, l: &[u8], w: usize) -> Record
    requires classes { Classes t.now }
    requires lists { Lists rows.now }
    requires l_bound { w + length l.now ≤ limit.octets }
    ensures { numbers result ≡ record_of edition w l.now }
{
    let Ok(x) = card_line::parts_of(t, rows, edition, l) else {
        return Record {
            property: 0,
            start: 0,
            length: 0,
            group_length: 0,
            name_length: 0,
            param_count: 0,
            value_start: 0,
            kind: 0,
        };
    };
    let from = card_line::name_start(x.group_length);
    Record {
        property: x.row as u32,
        start: w as u32,
        length: l.len() as u32,
        group_length: x.group_length as u32,
        name_length: (x.name_end - from) as u32,
        param_count: x.param_count as u32,
        value_start: (w + x.value_start) as u32,
        kind: x.kind as u32,
    }
}

// Writes the record's numbers from `at` on.
fn put_record(out: &mut [u32], at: usize, r: Record)
    requires { at + limit.record_length ≤ length out.old }
    ensures { out.new ≡ take at out.old ++ numbers r ++ drop (at + limit.record_length) out.old }
{
    let row = [
        r.property,
        r.start,
        r.length,
        r.group_length,
        r.name_length,
        r.param_count,
        r.value_start,
        r.kind,
    ];
    out[at..at + limit::RECORD_LENGTH].copy_from_slice(&row);
}

// Writes the records of the lines of s, which has no folds, to the start of out.
fn write_records(t: &ClassTable, rows: &PropertyTable, edition: Edition, s: &[u8], out: &mut [u32])
    requires classes { Classes t.now }
    requires lists { Lists rows.now }
    requires s_len_bound { length s.now ≤ limit.octets }
    requires s_in_bounds { length (records_from edition 0 (raw_lines s.now)) ≤ length out.old }
    requires by_index { (k : ℕ) → fold_at (drop k s.now) ≡ false }
    ensures { out.new ≡ overlay (records_from edition 0 (raw_lines s.now)) out.old }
{
    let mut at: usize = 0;
    let mut k: usize = 0;
    while at < s.len() {
        let end = line_folds::hops::next_cr(s, at);
        let r = record_of(t, rows, edition, &s[at..end], at);
        put_record(out, k, r);
        k += limit::RECORD_LENGTH;
        at = end + 2;
    }
}

// Writes s without its folds to the start of copy, where none is left, and the records of the lines there to the start of out.
pub fn write_lines(
    t: &ClassTable,
    rows: &PropertyTable,
    edition: Edition,
    s: &[u8],
    copy: &mut [u8],
    out: &mut [u32],
)
    requires classes { Classes t.now }
    requires lists { Lists rows.now }
    requires s_len_bound { length s.now ≤ limit.octets }
    requires s_in_bounds { (length (unfolded s.now) ≤ length copy.old) × (length (records_from edition 0 (raw_lines (unfolded s.now))) ≤ length out.old) }
    requires by_index { (k : ℕ) → fold_at (drop k (unfolded s.now)) ≡ false }
    ensures copy_after { copy.new ≡ overlay (unfolded s.now) copy.old }
    ensures out_after { out.new ≡ overlay (records_from edition 0 (raw_lines (unfolded s.now))) out.old }
{
    let n = line_unfolding::unfold_text(s, copy);
    write_records(t, rows, edition, &copy[..n], out);
}
