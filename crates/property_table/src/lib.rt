// The property table: the row of a name in each edition, what a row says, and the kind that a VALUE parameter names.
#![tactic(auto)]

ghost use Rattle.std.specs.Prelude.{◌≡◌, true, ◌+◌, ◌*◌, ◌<◌, ◌≤◌, length, get_or};
ghost use Rattle.numbers.specs.Limits as limit;
ghost use Rattle.numbers.specs.Properties as property;
ghost use Rattle.numbers.specs.Kinds as kinds;
ghost use Rattle.octets.specs.Cases.{same};
ghost use Rattle.property_table.specs.declared.Edition.TheVariants.{Second};
ghost use Rattle.property_table.specs.Rows.{row_length, row_count, row_of, row_at, initial, agrees, first_of, next_of, kind_at, once_at, framing, rule_at, kind_named, is_group, Lists};

pub mod rows;

use numbers::{kind, property};
use octets::cases::same_name;
use octets::indices::wide;
use rows::PropertyTable;

// RFC 6350, or RFC 9554, which adds names and lets N and ADR have more components.
#[derive(Clone, Copy, Debug, PartialEq, Eq)]
pub enum Edition {
    First,
    Second,
}

// How many entries the table has for a row.
const ROW: usize = 16;

// The most octets of a name.
const LONGEST: usize = 13;

// The column of the number among the properties that a card has at most once; the columns behind it are the name's octets but the first.
const ONCE: usize = 0;

// The column of the kind.
const KIND: usize = 13;

// The column of the next row with a name as long and the same first letter.
const NEXT: usize = 14;

// The column of the rule by which parameters set the kind.
const RULE: usize = 15;

// The rule of a row whose kind no parameter sets.
pub const BY_ROW: usize = 0;

// The rule of a row whose kind a VALUE parameter sets.
pub const BY_VALUE: usize = 1;

// The rule of a row of dates, whose kind VALUE and CALSCALE set.
pub const BY_CALENDAR: usize = 2;

// The rule of TZ, whose kind VALUE sets, an offset too.
pub const BY_ZONE: usize = 3;

// The letter a, which the index starts with.
const FIRST_LETTER: usize = 97;

// Where the index starts, behind the rows; it has as many entries as a row for each letter, one for each length.
const INDEX: usize = property::ALL * ROW;

// The table as a value, which its users are lent: a use of the constant in a loop would build it there at each turn.
pub fn table() -> PropertyTable
    ensures { Lists result }
{
    rows::ROWS
}

// The entry of a row in a column.
fn entry(rows: &PropertyTable, row: usize, column: usize) -> usize
    requires { (row < property.all) × (column < row_length) }
    ensures { result ≡ get_or rows.now (row * row_length + column) 0 }
{
    wide(rows[row * ROW + column])
}

// The first row whose name is as long as this one and starts with the same letter in any case, 0 for none.
fn first_chosen(rows: &PropertyTable, name: &[u8]) -> usize
    requires { Lists rows.now }
    ensures { result ≡ first_of (length name.now) (initial name.now) }
{
    if name.is_empty() {
        return 0;
    }
    if LONGEST < name.len() {
        return 0;
    }
    let letter = name[0] | 32;
    if letter < b'a' {
        return 0;
    }
    if b'z' < letter {
        return 0;
    }
    wide(rows[INDEX + (wide(letter) - FIRST_LETTER) * ROW + name.len()]) - name.len()
}

// The next row that agrees with this one's name in length and first letter, 0 for none.
fn next_chosen(rows: &PropertyTable, row: usize) -> usize
    requires lists { Lists rows.now }
    requires row_lt_all { row < property.all }
    ensures { result ≡ next_of row }
{
    entry(rows, row, NEXT)
}

// Whether the row's name, which is as long and starts with the same letter, is this one without case: a capital and an octet differ at most
// in the bit of 32.
fn spells(rows: &PropertyTable, row: usize, name: &[u8]) -> bool
    requires lists { Lists rows.now }
    requires row_lt_all { row < property.all }
    requires row_value { agrees name.now (row_at row) ≡ true }
    ensures { result ≡ same name.now (row_at row).name }
{
    let base = row * ROW;
    for i in 1..name.len() {
        if name[i] | 32 != rows[base + i] | 32 {
            return false;
        }
    }
    true
}

// The number of the row of either edition with this name without case, or 0: only rows with a name as long and the same first letter are
// compared.
fn find_any(rows: &PropertyTable, name: &[u8]) -> usize
    requires { Lists rows.now }
    ensures value { result ≡ row_of Second name.now }
    ensures upper_bound { result < property.all }
{
    let mut row = first_chosen(rows, name);
    while 0 < row {
        if spells(rows, row, name) {
            return row;
        }
        row = next_chosen(rows, row);
    }
    0
}

// How many rows an edition has, row 0 counted in.
fn row_count(edition: Edition) -> usize
    ensures { result ≡ row_count edition }
{
    match edition {
        Edition::First => property::COUNT,
        Edition::Second => property::ALL,
    }
}

// The number of the edition's row with this name without case, or 0.
pub fn find_row(rows: &PropertyTable, edition: Edition, name: &[u8]) -> usize
    requires { Lists rows.now }
    ensures value { result ≡ row_of edition name.now }
    ensures upper_bound { result < row_count edition }
{
    let row = find_any(rows, name);
    if row < row_count(edition) {
        return row;
    }
    0
}

// The kind of a row's value.
pub fn kind_of(rows: &PropertyTable, row: usize) -> usize
    requires lists { Lists rows.now }
    requires row_lt_all { row < property.all }
    ensures value { result ≡ kind_at row }
    ensures upper_bound { result < kinds.count }
{
    entry(rows, row, KIND)
}

// The number of a row among those of the properties that a card has at most once, counted from 1; 0 for any other row.
pub fn once_of(rows: &PropertyTable, row: usize) -> usize
    requires lists { Lists rows.now }
    requires row_lt_all { row < property.all }
    ensures value { result ≡ once_at row }
    ensures upper_bound { result ≤ limit.flags }
{
    entry(rows, row, ONCE)
}

// The rule by which parameters set the kind of a row's line.
pub fn rule_of(rows: &PropertyTable, row: usize) -> usize
    requires lists { Lists rows.now }
    requires row_lt_all { row < property.all }
    ensures { result ≡ rule_at row }
{
    entry(rows, row, RULE)
}

// The kind that a VALUE parameter names.
pub fn kind_named(value: &[u8]) -> usize
    ensures value { result ≡ kind_named value.now }
    ensures upper_bound { result < kinds.count }
{
    if same_name(value, b"text") {
        return kind::TEXT;
    }
    if same_name(value, b"uri") {
        return kind::URI;
    }
    kind::ANYTHING
}

// Whether lines of the row frame a card: BEGIN, VERSION and END.
#[tactic(auto, unfolding(crate::specs::Rows::framing))]
pub fn is_framing(row: usize) -> bool
    ensures { result ≡ framing row }
{
    matches!(row, property::BEGIN | property::VERSION | property::END)
}

// Whether a KIND line's value lets MEMBER stand in the card.
pub fn is_group(value: &[u8]) -> bool
    ensures { result ≡ is_group value.now }
{
    same_name(value, b"group")
}
