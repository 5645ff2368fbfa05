// The sheet on two edits: a row a pair or line, a mark before it, and the line under it with the counts.
use cabbook_messages::sentences;
use cabbook_output::Unwritten;
use program_host::{Host, STDOUT};
use program_output::put_all;

// How many cells a column has.
const WIDTH: usize = 38;

// The cells of the mark and its space.
const MARK: usize = 2;

// What was shown so far: pairs of one value and of two, lines that stand on both sides alike, lines on one side alone.
#[derive(Clone, Copy, Debug, Default, PartialEq, Eq)]
pub(crate) struct Tally {
    pub(crate) same: usize,
    pub(crate) other: usize,
    pub(crate) alike: usize,
    pub(crate) first: usize,
    pub(crate) second: usize,
}

// Adds two texts side by side behind a mark; the second in a row of its own where the first is wider than its column.
pub(crate) fn put_row(room: &mut [u8], at: usize, mark: &[u8], left: &[u8], right: &[u8]) -> usize {
    let start = put_all(room, at, mark);
    if right.is_empty() {
        let left_end = program_visible::put_visible(room, start, left);
        return put_all(room, left_end, b"\n");
    }
    if cabbook_cells::spare(left, WIDTH + 1) > 0 {
        let left_end = cabbook_columns::put_column(room, start, left, WIDTH);
        let right_end = program_visible::put_visible(room, left_end, right);
        return put_all(room, right_end, b"\n");
    }
    let left_end = program_visible::put_visible(room, start, left);
    let row_end = put_all(room, left_end, b"\n");
    let gap_end = program_output::put_spaces(room, row_end, MARK + WIDTH + 1);
    let right_end = program_visible::put_visible(room, gap_end, right);
    put_all(room, right_end, b"\n")
}

// Prints two texts side by side behind a mark.
pub(crate) fn print_row(
    host: &mut Host,
    mark: &[u8],
    left: &[u8],
    right: &[u8],
) -> Result<(), Unwritten> {
    let mut room = [0u8; PAGE];
    let n = put_row(&mut room, 0, mark, left, right);
    cabbook_output::send(host, STDOUT, &room, n)
}

// More octets than a row has: each octet of two lines in digits.
const PAGE: usize = 65536 * 3;

// Adds the lines under the rows: the counts, and what the marks say.
fn put_counts(room: &mut [u8], at: usize, t: Tally) -> usize {
    let same_end = sentences::put_amount(room, at, t.same, b" = with the same value, ");
    let other_end = sentences::put_amount(room, same_end, t.other, b" ! with another value, ");
    let alike_end = sentences::put_amount(
        room,
        other_end,
        t.alike,
        b" ~ alike without a PID in common, ",
    );
    let first_end = sentences::put_amount(room, alike_end, t.first, b" < in the first alone, ");
    sentences::put_amount(room, first_end, t.second, b" > in the second alone\n")
}

// Prints the counts.
pub(crate) fn print_counts(host: &mut Host, t: Tally) -> Result<(), Unwritten> {
    let mut room = program_host::buffer();
    let n = put_counts(&mut room, 0, t);
    cabbook_output::send(host, STDOUT, &room, n)
}
