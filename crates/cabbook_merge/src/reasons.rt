// Why two edits can't be merged, in words: what is over a limit, the UIDs, or a line that two lines ask for.
use crate::clash::Clash;
use crate::side::{Edit, Side};
use crate::{clash, sheet, side};
use cabbook_messages::words;
use numbers::refusal::Reason;
use numbers::{limit, property};
use program_output::put_all;

// Which limit an edit passes, if it passes one.
fn limit_passed(e: &Edit) -> Option<&'static [u8]> {
    if e.cards != 1 {
        return Some(b" has several cards, and an edit is one card");
    }
    let own = merge_sides::own_row(e.copy, e.records, e.lines);
    if limit::SOURCES < own.count {
        return Some(b" has over 16 CLIENTPIDMAP lines");
    }
    if merge_sides::over_entries(own) {
        return Some(b" has a CLIENTPIDMAP with a number over 65,535");
    }
    if clash::is_over(e) {
        return Some(b" has a PID with a number over 65,535");
    }
    None
}

// Adds what is said of an edit, behind its name.
fn put_said(room: &mut [u8], at: usize, e: &Edit, words: &[u8]) -> usize {
    let name_end = program_visible::put_visible(room, at, e.file.path);
    put_all(room, name_end, words)
}

// Adds which limit the edits pass.
pub(crate) fn put_over(room: &mut [u8], at: usize, a: &Edit, b: &Edit) -> usize {
    if let Some(words) = limit_passed(a) {
        return put_said(room, at, a, words);
    }
    if let Some(words) = limit_passed(b) {
        return put_said(room, at, b, words);
    }
    words::put_words(room, at, Reason::MergeLimit)
}

// Adds that a file has no UID.
fn put_no_uid(room: &mut [u8], at: usize, e: &Edit) -> usize {
    put_said(
        room,
        at,
        e,
        b" has no UID line, and two edits are of one card where they have one UID\n",
    )
}

// Adds a clash: the line, and beside it the two that ask for it.
fn put_clash(room: &mut [u8], at: usize, k: Clash, a: &Edit, b: &Edit) -> usize {
    match k.side {
        Side::First => {
            let start = put_all(
                room,
                at,
                b"a line of the first is asked for by two of the second, by their PIDs\n",
            );
            let line = side::line_of(a, k.line);
            let end = sheet::put_row(room, start, b"  ", line, side::line_of(b, k.one));
            sheet::put_row(room, end, b"  ", line, side::line_of(b, k.other))
        }
        Side::Second => {
            let start = put_all(
                room,
                at,
                b"a line of the second is asked for by two of the first, by their PIDs\n",
            );
            let line = side::line_of(b, k.line);
            let end = sheet::put_row(room, start, b"  ", side::line_of(a, k.one), line);
            sheet::put_row(room, end, b"  ", side::line_of(a, k.other), line)
        }
    }
}

// Adds why no plan passes: a UID is missing, the UIDs differ, or a line is asked for by two.
pub(crate) fn put_no_plan(room: &mut [u8], at: usize, a: &Edit, b: &Edit) -> usize {
    let i = merge_sides::find_line(a.records, a.lines, property::UID);
    let j = merge_sides::find_line(b.records, b.lines, property::UID);
    if i == a.lines {
        return put_no_uid(room, at, a);
    }
    if j == b.lines {
        return put_no_uid(room, at, b);
    }
    if !merge_sides::same_octets(side::value_of(a, i), side::value_of(b, j)) {
        let start = put_all(room, at, b"the UIDs differ, so these are two cards\n");
        return sheet::put_row(room, start, b"  ", side::line_of(a, i), side::line_of(b, j));
    }
    let Some(k) = clash::find(a, b) else {
        let end = words::put_words(room, at, Reason::NoPlan);
        return put_all(room, end, b"\n");
    };
    put_clash(room, at, k, a, b)
}
