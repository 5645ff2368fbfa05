// The parts of a line: its property's row, where its group, name and value stand, and the kind of its value.
#![tactic(auto)]

ghost use Rattle.std.specs.Prelude.{◌≡◌, List, ℕ, ◌≤◌, ◌<◌, length};
ghost use Rattle.std.proofs.Math.Option.{none};
ghost use Rattle.numbers.specs.Limits as limit;
ghost use Rattle.numbers.specs.Properties as property;
ghost use Rattle.octets.specs.Classes.{Classes};
ghost use Rattle.property_table.specs.Rows.{Lists, says, value_kind, date_kind, zone_kind, line_kind, value_name, calscale_name};
ghost use Rattle.line_parser.specs.Places.{name_start};
ghost use Rattle.card_line.specs.Parts.{parted, Accepted, first_value, line_parts_of};

use numbers::kind;
use numbers::refusal::Reason;
use octets::cases::same_name;
use octets::classes::ClassTable;
use property_table::Edition;
use property_table::rows::PropertyTable;

// The parts of a line that keeps the line rule.
#[derive(Clone, Copy, Debug, PartialEq, Eq)]
pub struct Parts {
    // The property's number, 0 for a name that is not listed.
    pub row: usize,
    // How long the group is, 0 for none.
    pub group_length: usize,
    // Where the name ends in the line.
    pub name_end: usize,
    // How many parameters there are.
    pub param_count: usize,
    // Where the value starts in the line.
    pub value_start: usize,
    // The kind of the value.
    pub kind: usize,
}

// Where the name starts: past the group and its dot.
pub fn name_start(group_length: usize) -> usize
    requires { group_length ≤ limit.octets }
    ensures { result ≡ name_start group_length }
{
    if group_length == 0 {
        return 0;
    }
    group_length + 1
}

// Whether the first value of the line's first parameter of that name is the text in any case; `missing` where it has none.
fn param_says(
    t: &ClassTable,
    s: &[u8],
    name_end: usize,
    name: &[u8],
    text: &[u8],
    missing: bool,
) -> bool
    requires classes { Classes t.now }
    requires accepted { Accepted s.now name_end }
    ensures { result ≡ says text.now missing (first_value name.now s.now) }
{
    match line_parameters::param_first(t, s, name_end, name) {
        Some(first) => same_name(&s[first.start..first.end], text),
        None => missing,
    }
}

// The kind that the line's VALUE names; the row's own where it has none.
fn kind_by_value(t: &ClassTable, s: &[u8], name_end: usize, own: usize) -> usize
    requires classes { Classes t.now }
    requires accepted { Accepted s.now name_end }
    ensures { result ≡ value_kind own (first_value value_name s.now) }
{
    match line_parameters::param_first(t, s, name_end, b"VALUE") {
        Some(first) => property_table::kind_named(&s[first.start..first.end]),
        None => own,
    }
}

// The kind of the value of a line of a row of dates.
fn kind_by_calendar(t: &ClassTable, s: &[u8], name_end: usize) -> usize
    requires classes { Classes t.now }
    requires accepted { Accepted s.now name_end }
    ensures { result ≡ date_kind (first_value value_name s.now) (first_value calscale_name s.now) }
{
    if param_says(t, s, name_end, b"VALUE", b"text", false) {
        return kind::TEXT;
    }
    if param_says(t, s, name_end, b"CALSCALE", b"gregorian", true) {
        return kind::DATE;
    }
    kind::ANYTHING
}

// The kind of the value of a line of TZ.
fn kind_by_zone(t: &ClassTable, s: &[u8], name_end: usize) -> usize
    requires classes { Classes t.now }
    requires accepted { Accepted s.now name_end }
    ensures { result ≡ zone_kind (first_value value_name s.now) }
{
    if param_says(t, s, name_end, b"VALUE", b"utc-offset", false) {
        return kind::OFFSET;
    }
    kind_by_value(t, s, name_end, kind::TEXT)
}

// The kind of the value of a line of the row whose name ends at `name_end`: the row's own where it has no parameter.
fn kind_at(
    t: &ClassTable,
    rows: &PropertyTable,
    s: &[u8],
    row: usize,
    name_end: usize,
    param_count: usize,
) -> usize
    requires classes { Classes t.now }
    requires lists { Lists rows.now }
    requires row_lt_all { row < property.all }
    requires accepted { Accepted s.now name_end }
    requires s_value { param_count ≡ 0 → (name : List ℕ) → first_value name s.now ≡ none }
    ensures { result ≡ line_kind row (first_value value_name s.now) (first_value calscale_name s.now) }
{
    let own = property_table::kind_of(rows, row);
    if param_count == 0 {
        return own;
    }
    match property_table::rule_of(rows, row) {
        property_table::BY_ROW => own,
        property_table::BY_VALUE => kind_by_value(t, s, name_end, own),
        property_table::BY_CALENDAR => kind_by_calendar(t, s, name_end),
        _ => kind_by_zone(t, s, name_end),
    }
}

// The parts of a line, or the fault by which it breaks the line rule.
pub fn parts_of(
    t: &ClassTable,
    rows: &PropertyTable,
    edition: Edition,
    s: &[u8],
) -> Result<Parts, Reason>
    requires classes { Classes t.now }
    requires lists { Lists rows.now }
    requires s_len_bound { length s.now ≤ limit.octets }
    ensures { parted result ≡ line_parts_of edition s.now }
{
    let line = line_parser::rule::read_line(t, s)?;
    let start = name_start(line.group_length);
    let row = property_table::find_row(rows, edition, &s[start..line.name_end]);
    let kind = kind_at(t, rows, s, row, line.name_end, line.param_count);
    Ok(Parts {
        row,
        group_length: line.group_length,
        name_end: line.name_end,
        param_count: line.param_count,
        value_start: line.value_start,
        kind,
    })
}
