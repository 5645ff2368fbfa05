// A card's source map: the host's row of entries as a slice of structs, and the same row as a value, which all other functions take.
#![tactic(auto)]

ghost use Rattle.std.specs.Prelude.{◌≡◌, [], ◌+◌, ◌<◌, ◌≤◌, min, get_or, take};
ghost use Rattle.numbers.specs.Limits as limit;
ghost use Rattle.merge_sources.specs.Row.{none, filled, put, row_of, least, first_in, same_row};

use numbers::limit;

// An entry of a source map: a source's number, and where its URI stands in the card's copy.
#[derive(Clone, Copy, Debug, PartialEq, Eq)]
pub struct Source {
    pub number: u32,
    pub place: u32,
    pub length: u32,
}

// A row by value: how many entries it has, and the first sixteen of them, zeros past the end.
#[derive(Clone, Copy, Debug, PartialEq, Eq)]
pub struct Row {
    pub count: usize,
    pub entries: [Source; limit::SOURCES],
}

// How many entries a program may lend: one more than a row may have, so that a longer one is seen.
pub const LENT: usize = limit::SOURCES + 1;

// The entries of a row as a program holds them.
pub type Entries = [Source; LENT];

// One entry of a lent row, or zeros past the end.
pub fn at(m: &[Source], i: usize) -> Source
    ensures { result ≡ get_or m.now i none }
{
    if i < m.len() {
        return m[i];
    }
    Source {
        number: 0,
        place: 0,
        length: 0,
    }
}

// A row that claims so many entries, all of them zeros.
pub fn empty(count: usize) -> Row
    ensures { result ≡ filled count [] 0 }
{
    Row {
        count,
        entries: [Source {
            number: 0,
            place: 0,
            length: 0,
        }; limit::SOURCES],
    }
}

// The row with another entry at i.
pub fn with_entry(r: Row, i: usize, e: Source) -> Row
    requires { i < limit.sources }
    ensures { result ≡ put r i e }
{
    let mut next = r;
    next.entries[i] = e;
    next
}

// A lent row as a value.
pub fn row_of(m: &[Source]) -> Row
    ensures { result ≡ row_of m.now }
{
    let mut r = empty(m.len());
    for i in 0..limit::SOURCES {
        r = with_entry(r, i, at(m, i));
    }
    r
}

// The row of the first n entries of an array, at most seventeen, for programs that hold the entries.
pub fn lend_row(a: Entries, n: usize) -> Row
    ensures { result ≡ row_of (take (min n (limit.sources + 1)) a) }
{
    let k = n.min(LENT);
    row_of(&a[..k])
}

// Where the first entry of a number stands.
pub fn search(r: Row, number: u32) -> Option<usize>
    ensures { result ≡ first_in r.entries 0 (least r.count) number }
{
    let end = r.count.min(limit::SOURCES);
    r.entries[..end].iter().position(|e| e.number == number)
}

// Whether two rows have as many entries, and the same.
pub fn same_row(a: Row, b: Row) -> bool
    ensures { result ≡ same_row a b }
{
    a == b
}
