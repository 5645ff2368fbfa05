// The columns of a card's line: property, group and parameters, taken from the copy by a record's numbers.
ghost use Rattle.std.specs.Prelude.{◌≡◌, ◌+◌, ◌≤◌};
ghost use Rattle.program_output.specs.Pages.{page, added};
ghost use Rattle.line_parser.specs.Places.{name_start};
ghost use Rattle.cabbook_columns.specs.Columns.{at_left};
ghost use Rattle.cabbook_tables.specs.Fields.{framed, parameters_width, meanings, fields, title_text, card_text};

use numbers::{limit, property};

// How many characters the column of the property has.
pub const PROPERTY_WIDTH: usize = 14;

// How many characters the column of the group has.
pub const GROUP_WIDTH: usize = 8;

// How many characters the column of the parameters has.
pub const PARAMETERS_WIDTH: usize = 26;

// Whether a property is BEGIN, END or VERSION, which have no row.
pub fn is_frame(number: u32) -> bool
    ensures { result ≡ framed number }
{
    let row = number as usize;
    if row == property::BEGIN {
        return true;
    }
    if row == property::END {
        return true;
    }
    row == property::VERSION
}

// Adds the names of the columns.
pub fn put_titles(room: &mut [u8], at: usize) -> usize
    ensures { page result room.new ≡ added title_text (page at room.old) }
{
    let property_end = cabbook_columns::put_column(room, at, b"property", PROPERTY_WIDTH);
    let group_end = cabbook_columns::put_column(room, property_end, b"group", GROUP_WIDTH);
    let end = cabbook_columns::put_column(room, group_end, b"parameters", PARAMETERS_WIDTH);
    program_output::put_all(room, end, b"value\n")
}

// Adds the line above a card's rows.
pub fn put_card(room: &mut [u8], at: usize, number: usize) -> usize
    ensures { page result room.new ≡ added (card_text number) (page at room.old) }
{
    let start = program_output::put_all(room, at, b"card ");
    cabbook_messages::sentences::put_amount(room, start, number, b"\n")
}

// Where the name starts in a line that starts there and has a group of that length.
fn name_start(start: u32, group_length: u32) -> usize
    ensures value { result ≡ start + name_start group_length }
    ensures upper_bound { result ≤ start + group_length + 1 }
{
    if group_length == 0 {
        return start as usize;
    }
    start as usize + group_length as usize + 1
}

// Adds the column of the parameters, with what each pair of RFC 6868 stands for.
fn put_parameters(room: &mut [u8], at: usize, parameters: &[u8]) -> usize
    ensures { page result room.new ≡ added (at_left (meanings parameters.now) parameters_width) (page at room.old) }
{
    if limit::OCTETS < parameters.len() {
        return cabbook_columns::put_column(room, at, parameters, PARAMETERS_WIDTH);
    }
    let mut meant = [0u8; limit::OCTETS];
    let n = label_carets::write(parameters, &mut meant);
    cabbook_columns::put_column(
        room,
        at,
        octets::slices::part(&meant, 0, n),
        PARAMETERS_WIDTH,
    )
}

// Adds the columns before the value, of a line that starts there, has a group and a name of these lengths, and a value from there on.
pub fn put_fields(
    room: &mut [u8],
    at: usize,
    copy: &[u8],
    start: u32,
    group_length: u32,
    name_length: u32,
    value_start: u32,
) -> usize
    ensures { page result room.new ≡ added (fields copy.now start group_length name_length value_start) (page at room.old) }
{
    let name_from = name_start(start, group_length);
    let name_end = name_from + name_length as usize;
    let group_end = start as usize + group_length as usize;
    let name = octets::slices::part(copy, name_from, name_end);
    let property_column = cabbook_columns::put_column(room, at, name, PROPERTY_WIDTH);
    let group = octets::slices::part(copy, start as usize, group_end);
    let group_column = cabbook_columns::put_column(room, property_column, group, GROUP_WIDTH);
    let end = cabbook_positions::before(value_start as usize);
    let parameters = octets::slices::part(copy, name_end + 1, end);
    put_parameters(room, group_column, parameters)
}
