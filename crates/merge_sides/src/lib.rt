// One side of a merge: what an accepted card's copy and records say of its lines, its own row of sources, and its marks.
#![tactic(auto)]

ghost use Rattle.std.specs.Prelude.{◌≡◌, ◌+◌, ◌<◌, ◌≤◌, length};
ghost use Rattle.numbers.specs.Limits as limit;
ghost use Rattle.numbers.specs.Fields as field;
ghost use Rattle.octets.specs.Classes.{Classes};
ghost use Rattle.merge_pids.specs.Marks.{marked, put_all};
ghost use Rattle.merge_sides.specs.Lines.{field_at, name_start_at, value_at, same_octets, same_property, first_line, count_lines};
ghost use Rattle.merge_sides.specs.Sources.{narrowed, source_at, with_source, with_line, own_row, over_entries};
ghost use Rattle.merge_sides.specs.Marks.{line_marks, marks_from, over_marks};

use merge_sources::{Row, Source};
use numbers::{field, limit, property};
use octets::classes::ClassTable;
use octets::indices::wide_number;
use octets::slices::part;

// A field of the record of line i; 0 where there is none.
pub fn field_at(rs: &[u32], i: usize, k: usize) -> usize
    requires { k < limit.record_length }
    ensures value { result ≡ field_at rs.now i k }
    ensures upper_bound { result < limit.word }
{
    if limit::LINES < i {
        return 0;
    }
    let at = i * limit::RECORD_LENGTH + k;
    if rs.len() <= at {
        return 0;
    }
    wide_number(rs[at])
}

// Where the name of line i starts in the copy.
pub fn name_start(rs: &[u32], i: usize) -> usize
    ensures value { result ≡ name_start_at rs.now i }
    ensures upper_bound { result ≤ limit.word + limit.word }
{
    let start = field_at(rs, i, field::START);
    let group = field_at(rs, i, field::GROUP);
    if group == 0 {
        return start;
    }
    start + group + 1
}

// Whether two octet lists are equal.
pub fn same_octets(a: &[u8], b: &[u8]) -> bool
    ensures { result ≡ same_octets a.now b.now }
{
    a == b
}

// Whether line i of the first card and line j of the second have one property: the same number, and for number 0 the same name without case.
pub fn same_property(ca: &[u8], ra: &[u32], i: usize, cb: &[u8], rb: &[u32], j: usize) -> bool
    ensures { result ≡ same_property ca.now ra.now i cb.now rb.now j }
{
    let row = field_at(ra, i, field::PROPERTY);
    if row != field_at(rb, j, field::PROPERTY) {
        return false;
    }
    if row != property::OTHER {
        return true;
    }
    let a = name_start(ra, i);
    let b = name_start(rb, j);
    let x = part(ca, a, a + field_at(ra, i, field::NAME));
    let y = part(cb, b, b + field_at(rb, j, field::NAME));
    octets::cases::same_name(x, y)
}

// The first of n lines with the property number; n where there is none.
pub fn find_line(rs: &[u32], n: usize, row: usize) -> usize
    ensures value { result ≡ first_line rs.now row 0 n }
    ensures upper_bound { result ≤ n }
{
    for i in 0..n {
        if field_at(rs, i, field::PROPERTY) == row {
            return i;
        }
    }
    n
}

// How many of n lines have the property number.
pub fn count_lines(rs: &[u32], n: usize, row: usize) -> usize
    ensures { result ≡ count_lines rs.now row 0 n }
{
    (0..n)
        .filter(|i| field_at(rs, *i, field::PROPERTY) == row)
        .count()
}

// The value of line i in the copy.
pub fn value_of<'a>(c: &'a [u8], rs: &[u32], i: usize) -> &'a [u8]
    ensures result_value { result.now ≡ value_at c.now rs.now i }
    ensures result_in_bounds { length result.now ≤ length c.now }
{
    let start = field_at(rs, i, field::START);
    let end = start + field_at(rs, i, field::LENGTH);
    part(c, field_at(rs, i, field::VALUE), end)
}

// A number in 32 bits, the largest for any larger one.
fn narrow(n: usize) -> u32
    ensures { result ≡ narrowed n }
{
    u32::try_from(n).unwrap_or(u32::MAX)
}

// The source that the value of line i, a CLIENTPIDMAP line, has: its number, and its URI's place and length.
fn source_at(c: &[u8], rs: &[u32], i: usize) -> Source
    ensures { result ≡ source_at c.now rs.now i }
{
    let v = value_of(c, rs, i);
    let end = merge_pids::digits_end(v, 0);
    let number = merge_pids::read_number(&v[..end]);
    let from = field_at(rs, i, field::VALUE);
    if v.len() <= end {
        return Source {
            number,
            place: narrow(from + end),
            length: 0,
        };
    }
    Source {
        number,
        place: narrow(from + end + 1),
        length: narrow(v.len() - end - 1),
    }
}

// The row with one source more, the entry itself only where it is one of the first sixteen.
fn add_source(r: Row, e: Source) -> Row
    requires { r.count < limit.largest64 }
    ensures value { result ≡ with_source r e }
    ensures count_value { result.count ≡ r.count + 1 }
{
    let count = r.count;
    let entries = r.entries;
    let next = Row {
        count: count + 1,
        entries,
    };
    if limit::SOURCES <= count {
        return next;
    }
    merge_sources::with_entry(next, count, e)
}

// The row with the source of line i, where that is a CLIENTPIDMAP line.
fn add_line(r: Row, c: &[u8], rs: &[u32], i: usize) -> Row
    requires { r.count < limit.largest64 }
    ensures value { result ≡ with_line r c.now rs.now i }
    ensures count_bound { result.count ≤ r.count + 1 }
{
    if field_at(rs, i, field::PROPERTY) != property::CLIENTPIDMAP {
        return r;
    }
    add_source(r, source_at(c, rs, i))
}

// The card's own row: its CLIENTPIDMAP lines among the first n lines, in order.
pub fn own_row(c: &[u8], rs: &[u32], n: usize) -> Row
    ensures { result ≡ own_row c.now rs.now n }
{
    let mut r = merge_sources::empty(0);
    for i in 0..n {
        r = add_line(r, c, rs, i);
    }
    r
}

// Whether one of the row's first sixteen entries has a number over 65,535.
pub fn over_entries(r: Row) -> bool
    ensures { result ≡ over_entries r.entries 0 limit.sources }
{
    r.entries
        .iter()
        .any(|e| limit::SOURCE_NUMBER < wide_number(e.number))
}

// Writes the marks of line i.
fn put_line(t: &ClassTable, c: &[u8], rs: &[u32], i: usize, out: &mut [u32], at: usize) -> usize
    requires { Classes t.now }
    ensures { marked result out.new ≡ put_all (marked at out.old) (line_marks c.now rs.now i) }
{
    if field_at(rs, i, field::PARAMETERS) == 0 {
        return at;
    }
    let name_end = name_start(rs, i) + field_at(rs, i, field::NAME);
    let start = field_at(rs, i, field::START);
    let l = part(c, name_end, start + field_at(rs, i, field::LENGTH));
    merge_pids::put_params(t, l, 0, narrow(i), out, at)
}

// Writes the marks of the first n lines, and answers where they end.
pub fn put_marks(t: &ClassTable, c: &[u8], rs: &[u32], n: usize, out: &mut [u32]) -> usize
    requires { Classes t.now }
    ensures { marked result out.new ≡ put_all (marked 0 out.old) (marks_from c.now rs.now 0 n) }
{
    let mut next: usize = 0;
    for i in 0..n {
        next = put_line(t, c, rs, i, out, next);
    }
    next
}

// Whether a number of the marks that end at n is over 65,535; a line's own never is.
pub fn over_marks(marks: &[u32], n: usize) -> bool
    ensures { result ≡ over_marks marks.now n }
{
    let end = n.min(marks.len());
    marks[..end]
        .iter()
        .any(|x| limit::SOURCE_NUMBER < wide_number(*x))
}
