// `merge`: two edits of one card side by side, by the pairs of lines that the planner proposes; or why no plan passes.
#![tactic(auto)]

mod clash;
mod reasons;
mod sheet;
mod side;

ghost use Rattle.std.specs.Prelude.{IfOk};
ghost use Rattle.cabbook_output.specs.Ends.{Status};

use cabbook_messages::sentences;
use cabbook_output::{Ended, File, Unwritten};
use cabbook_tables::status;
use merge::Entries;
use merge_sources::{Row, Source};
use numbers::limit;
use numbers::refusal::{Reason, Refusal};
use octets::slices::{numbers, part};
use program_host::{Host, STDERR};
use program_output::put_all;
use property_table::Edition;
use sheet::Tally;
use side::{Edit, Side};

// How many numbers the records of a card may take.
const RECORDS: usize = limit::LINES * limit::RECORD_LENGTH;

// How many numbers a plan may take.
const PLAN: usize = limit::LINES * 2;

// More octets than what is said of a refusal has: each octet of two files in digits.
const PAGE: usize = 65536 * 4;

// The entries of a row, as they are lent.
fn entries_of(r: Row) -> Entries {
    let none = Source {
        number: 0,
        place: 0,
        length: 0,
    };
    let mut entries = [none; merge_sources::LENT];
    entries[..limit::SOURCES].copy_from_slice(&r.entries);
    entries
}

// Shows a pair of lines: whether their values are the same.
fn show_pair(
    host: &mut Host,
    mut t: Tally,
    a: &Edit,
    i: usize,
    b: &Edit,
    j: usize,
) -> Result<Tally, Unwritten> {
    let left = side::line_of(a, i);
    let right = side::line_of(b, j);
    if merge_sides::same_octets(side::value_of(a, i), side::value_of(b, j)) {
        t.same = t.same.saturating_add(1);
        sheet::print_row(host, b"= ", left, right)?;
        return Ok(t);
    }
    t.other = t.other.saturating_add(1);
    sheet::print_row(host, b"! ", left, right)?;
    Ok(t)
}

// Shows line i of the first edit.
fn show_first(
    host: &mut Host,
    mut t: Tally,
    a: &Edit,
    i: usize,
    b: &Edit,
    plan: &[u32],
) -> Result<Tally, Unwritten> {
    if side::is_frame(a, i) {
        return Ok(t);
    }
    if let Some(j) = side::partner_of(plan, Side::First, i) {
        return show_pair(host, t, a, i, b, j);
    }
    let line = side::line_of(a, i);
    let before = side::count_alike(a, i, plan, Side::First, line);
    if before < side::count_alike(b, b.lines, plan, Side::Second, line) {
        t.alike = t.alike.saturating_add(1);
        sheet::print_row(host, b"~ ", line, line)?;
        return Ok(t);
    }
    t.first = t.first.saturating_add(1);
    sheet::print_row(host, b"< ", line, b"")?;
    Ok(t)
}

// Shows line j of the second edit, where it stands there alone.
fn show_second(
    host: &mut Host,
    mut t: Tally,
    a: &Edit,
    b: &Edit,
    j: usize,
    plan: &[u32],
) -> Result<Tally, Unwritten> {
    if side::is_frame(b, j) || side::partner_of(plan, Side::Second, j).is_some() {
        return Ok(t);
    }
    let line = side::line_of(b, j);
    let before = side::count_alike(b, j, plan, Side::Second, line);
    if before < side::count_alike(a, a.lines, plan, Side::First, line) {
        return Ok(t);
    }
    t.second = t.second.saturating_add(1);
    sheet::print_row(host, b"> ", b"", line)?;
    Ok(t)
}

// Shows two edits with their pairs, as long as rows can be written, and answers the exit status.
fn show(host: &mut Host, a: &Edit, b: &Edit, plan: &[u32]) -> Ended
    ensures { IfOk result Status }
{
    sheet::print_row(host, b"  ", a.file.path, b.file.path)?;
    let mut t = Tally::default();
    for i in 0..a.lines {
        t = show_first(host, t, a, i, b, plan)?;
    }
    for j in 0..b.lines {
        t = show_second(host, t, a, b, j, plan)?;
    }
    sheet::print_counts(host, t)?;
    Ok(status::ACCEPTED)
}

// Adds the start of what is said of two edits that are refused.
fn put_start(room: &mut [u8], a: &Edit, b: &Edit, reason: Reason) -> usize {
    let first_end = program_visible::put_visible(room, 0, a.file.path);
    let comma_end = put_all(room, first_end, b", ");
    let second_end = program_visible::put_visible(room, comma_end, b.file.path);
    let start = put_all(room, second_end, b": refused ");
    sentences::put_amount(room, start, reason.number() as usize, b": ")
}

// Adds why there is no plan for two edits.
fn put_no_plan(room: &mut [u8], a: &Edit, b: &Edit, reason: Reason) -> usize {
    let start = put_start(room, a, b, reason);
    if reason == Reason::MergeLimit {
        let end = reasons::put_over(room, start, a, b);
        return put_all(room, end, b"\n");
    }
    reasons::put_no_plan(room, start, a, b)
}

// Prints why there is no plan for two edits, and answers the exit status.
fn print_no_plan(host: &mut Host, a: &Edit, b: &Edit, reason: Reason) -> u8
    ensures { Status result }
{
    let mut room = [0u8; PAGE];
    let n = put_no_plan(&mut room, a, b, reason);
    let _ = cabbook_output::send(host, STDERR, &room, n);
    status::REFUSED
}

// Merges two edits that the reader accepts, and answers the exit status.
fn merge_read(host: &mut Host, a: &Edit, b: &Edit) -> Ended
    ensures { IfOk result Status }
{
    let mut plan = [0u32; PLAN];
    let planned = merge::lend_plan(
        a.file.octets,
        b.file.octets,
        entries_of(a.sources),
        a.sources.count,
        entries_of(b.sources),
        b.sources.count,
        &mut plan,
    );
    match planned {
        Ok(n) => show(host, a, b, numbers(&plan, n.min(limit::LINES) * 2)),
        Err(Refusal(reason, _)) => Ok(print_no_plan(host, a, b, reason)),
    }
}

// Merges two files, and answers the exit status.
fn merge_octets(host: &mut Host, first: File, second: File) -> Ended
    ensures { IfOk result Status }
{
    let mut ca = [0u8; limit::OCTETS];
    let mut ra = [0u32; RECORDS];
    let x = match reader::read(Edition::First, first.octets, &mut ca, &mut ra) {
        Ok(counts) => counts,
        Err(r) => return cabbook_output::print_refusal(host, STDERR, first, r),
    };
    let mut cb = [0u8; limit::OCTETS];
    let mut rb = [0u32; RECORDS];
    let y = match reader::read(Edition::First, second.octets, &mut cb, &mut rb) {
        Ok(counts) => counts,
        Err(r) => return cabbook_output::print_refusal(host, STDERR, second, r),
    };
    let a = Edit {
        file: first,
        copy: &ca,
        records: &ra,
        cards: x.cards,
        lines: x.lines,
        sources: merge::sources_of(first.octets),
    };
    let b = Edit {
        file: second,
        copy: &cb,
        records: &rb,
        cards: y.cards,
        lines: y.lines,
        sources: merge::sources_of(second.octets),
    };
    merge_read(host, &a, &b)
}

// Merges the files of these names, and answers the exit status.
fn merge_files(host: &mut Host, first: &[u8], second: &[u8]) -> Ended
    ensures { IfOk result Status }
{
    let mut x = [0u8; limit::READ_ROOM];
    let mut y = [0u8; limit::READ_ROOM];
    let Some(n) = program_files::read(host, first, &mut x) else {
        return Ok(status::FAILED);
    };
    let Some(m) = program_files::read(host, second, &mut y) else {
        return Ok(status::FAILED);
    };
    let one = File {
        path: first,
        octets: part(&x, 0, n),
    };
    let other = File {
        path: second,
        octets: part(&y, 0, m),
    };
    merge_octets(host, one, other)
}

// Merges the files that arguments i and j name, and answers the exit status.
pub fn merge_arguments(host: &mut Host, i: usize, j: usize) -> Ended
    ensures { IfOk result Status }
{
    let mut first = program_host::large_buffer();
    let n = host.arg(i, &mut first);
    let mut second = program_host::large_buffer();
    let m = host.arg(j, &mut second);
    merge_files(host, &first[..n], &second[..m])
}
