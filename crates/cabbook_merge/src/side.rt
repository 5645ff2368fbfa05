// One of two edits: its lines by their records, which of them have partners in a plan, and which stand on both sides without one.
use cabbook_output::File;
use cabbook_tables::fields;
use merge_sources::Row;
use numbers::field;
use octets::indices::wide_number;
use octets::slices::part;

// An edit that the reader accepts: its file, copy and records, how many cards and lines it has, and its sources.
#[derive(Clone, Copy)]
pub(crate) struct Edit<'a> {
    pub(crate) file: File<'a>,
    pub(crate) copy: &'a [u8],
    pub(crate) records: &'a [u32],
    pub(crate) cards: usize,
    pub(crate) lines: usize,
    pub(crate) sources: Row,
}

// Which of two edits.
#[derive(Clone, Copy, Debug, PartialEq, Eq)]
pub(crate) enum Side {
    First,
    Second,
}

// Line i of an edit as it stands in its copy.
pub(crate) fn line_of<'a>(e: &Edit<'a>, i: usize) -> &'a [u8] {
    let start = merge_sides::field_at(e.records, i, field::START);
    let end = start + merge_sides::field_at(e.records, i, field::LENGTH);
    part(e.copy, start, end)
}

// The value of line i.
pub(crate) fn value_of<'a>(e: &Edit<'a>, i: usize) -> &'a [u8] {
    merge_sides::value_of(e.copy, e.records, i)
}

// Whether line i is BEGIN, VERSION or END.
pub(crate) fn is_frame(e: &Edit, i: usize) -> bool {
    let row = merge_sides::field_at(e.records, i, field::PROPERTY);
    row <= numbers::limit::LINES && fields::is_frame(row as u32)
}

// The partner of a line of a side in the pair of a plan.
fn partner_in(side: Side, line: usize, a: usize, b: usize) -> Option<usize> {
    match side {
        Side::First if a == line => Some(b),
        Side::Second if b == line => Some(a),
        _ => None,
    }
}

// The partner of a line of a side in a plan.
pub(crate) fn partner_of(plan: &[u32], side: Side, line: usize) -> Option<usize> {
    let mut left = plan;
    while let [a, b, rest @ ..] = left {
        if let Some(partner) = partner_in(side, line, wide_number(*a), wide_number(*b)) {
            return Some(partner);
        }
        left = rest;
    }
    None
}

// Whether line i of a side is without a partner and has these octets.
fn is_alike(e: &Edit, plan: &[u32], side: Side, i: usize, text: &[u8]) -> bool {
    merge_sides::same_octets(line_of(e, i), text) && partner_of(plan, side, i).is_none()
}

// How many of the first n lines of a side are without a partner and have these octets.
pub(crate) fn count_alike(e: &Edit, n: usize, plan: &[u32], side: Side, text: &[u8]) -> usize {
    (0..n).filter(|i| is_alike(e, plan, side, *i, text)).count()
}
