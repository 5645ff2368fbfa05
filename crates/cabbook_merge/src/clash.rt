// Which line of one edit is asked for by two lines of the other, by their PIDs.
use crate::side::{Edit, Side};
use merge_sources::{Row, Source};
use numbers::limit;
use octets::classes::ClassTable;
use octets::indices::wide_number;
use octets::slices::{numbers, part};

// How many numbers the marks of a card may take.
const MARKS: usize = limit::LINES * merge_pids::MARK;

// A line of one side, and two lines of the other that ask for it.
#[derive(Clone, Copy, Debug, PartialEq, Eq)]
pub(crate) struct Clash {
    pub(crate) side: Side,
    pub(crate) line: usize,
    pub(crate) one: usize,
    pub(crate) other: usize,
}

// A PID of a line: its number, and that of its source.
#[derive(Clone, Copy, Debug, PartialEq, Eq)]
struct Mark {
    line: usize,
    number: u32,
    source: u32,
}

// With which line of the other side each line was asked for last.
#[derive(Clone, Copy)]
struct Asked {
    first: [Option<usize>; limit::LINES],
    second: [Option<usize>; limit::LINES],
}

// A mark of three numbers.
fn mark_of(line: u32, number: u32, source: u32) -> Mark {
    Mark {
        line: wide_number(line),
        number,
        source,
    }
}

// The octets of a source's URI.
fn uri_of(copy: &[u8], e: Source) -> &[u8] {
    let start = wide_number(e.place);
    part(copy, start, start + wide_number(e.length))
}

// The first entry of a number.
fn entry_of(r: Row, number: u32) -> Option<Source> {
    let i = merge_sources::search(r, number)?;
    if limit::SOURCES <= i {
        return None;
    }
    Some(r.entries[i])
}

// Whether two source numbers lead to one URI.
fn leads_alike(a: &Edit, m: u32, b: &Edit, n: u32) -> bool {
    let (Some(x), Some(y)) = (entry_of(a.sources, m), entry_of(b.sources, n)) else {
        return false;
    };
    if x.length == 0 || y.length == 0 {
        return false;
    }
    merge_sides::same_octets(uri_of(a.copy, x), uri_of(b.copy, y))
}

// Notes that y is asked for with x, and answers another line that was so before.
fn note(asked: &mut [Option<usize>; limit::LINES], x: usize, y: usize) -> Option<usize> {
    if limit::LINES <= x || limit::LINES <= y {
        return None;
    }
    let before = asked[x];
    asked[x] = Some(y);
    before.filter(|line| *line != y)
}

// The clash of a pair that is asked for.
fn enter(i: usize, j: usize, asked: &mut Asked) -> Option<Clash> {
    if let Some(before) = note(&mut asked.first, i, j) {
        return Some(Clash {
            side: Side::First,
            line: i,
            one: before,
            other: j,
        });
    }
    let before = note(&mut asked.second, j, i)?;
    Some(Clash {
        side: Side::Second,
        line: j,
        one: before,
        other: i,
    })
}

// The clash of two marks: where they share a global value, their lines are asked for together.
fn meet(a: &Edit, m: Mark, b: &Edit, n: Mark, asked: &mut Asked) -> Option<Clash> {
    if m.number != n.number {
        return None;
    }
    if !merge_sides::same_property(a.copy, a.records, m.line, b.copy, b.records, n.line) {
        return None;
    }
    if !leads_alike(a, m.source, b, n.source) {
        return None;
    }
    enter(m.line, n.line, asked)
}

// The first clash of a mark with the marks of the second edit.
fn meet_all(a: &Edit, m: Mark, b: &Edit, marks: &[u32], asked: &mut Asked) -> Option<Clash> {
    let mut left = marks;
    while let [line, number, source, rest @ ..] = left {
        let n = mark_of(*line, *number, *source);
        if let Some(clash) = meet(a, m, b, n, asked) {
            return Some(clash);
        }
        left = rest;
    }
    None
}

// The first clash of the marks of two edits.
fn meet_marks(a: &Edit, first: &[u32], b: &Edit, second: &[u32]) -> Option<Clash> {
    let mut asked = Asked {
        first: [None; limit::LINES],
        second: [None; limit::LINES],
    };
    let mut left = first;
    while let [line, number, source, rest @ ..] = left {
        let m = mark_of(*line, *number, *source);
        if let Some(clash) = meet_all(a, m, b, second, &mut asked) {
            return Some(clash);
        }
        left = rest;
    }
    None
}

// The first clash of two edits.
pub(crate) fn find(a: &Edit, b: &Edit) -> Option<Clash> {
    let t: ClassTable = octets::classes::table();
    let mut ma = [0u32; MARKS];
    let mut mb = [0u32; MARKS];
    let ea = merge_sides::put_marks(&t, a.copy, a.records, a.lines, &mut ma);
    let eb = merge_sides::put_marks(&t, b.copy, b.records, b.lines, &mut mb);
    meet_marks(a, numbers(&ma, ea), b, numbers(&mb, eb))
}

// Whether a PID of an edit has a number over 65,535.
pub(crate) fn is_over(e: &Edit) -> bool {
    let t: ClassTable = octets::classes::table();
    let mut marks = [0u32; MARKS];
    let end = merge_sides::put_marks(&t, e.copy, e.records, e.lines, &mut marks);
    merge_sides::over_marks(&marks, end)
}
