// The requests of the report, and the report that is kept beside desk and output.
#![tactic(auto)]

ghost use Rattle.std.specs.Prelude.{◌≡◌, ◌++◌, ◌≤◌};
ghost use Rattle.program_output.specs.Pages.{page, added};
ghost use Rattle.console_entries.specs.Rooms.{most_room, octet_room};
ghost use Rattle.console_entries.specs.Entries.{write_text};
ghost use Rattle.octets.specs.Room.{fill};
ghost use Rattle.report.specs.Answer.{answer};
ghost use Rattle.report.specs.Text.{report_text};
ghost use Rattle.console_report.specs.ReportAnswers.{kept_of, first, besides, taken_text, print_answer, fresh_answer, take_answer, prints_answer, place_past, place_named, count_answer};

use console_desk::Console;
use console_entries::{entries, rooms};
use numbers::refusal::Refusal;
use numbers::{count, limit};
use report::Report;

// The most octets of room that a request may ask for.
const ROOM: usize = 70000;

// What is kept from request to request: desk and output, and the report.
#[derive(Clone, Copy)]
pub struct Kept {
    pub console: Console,
    pub report: Report,
}

impl Kept {
    // Before the first request: a fresh report.
    pub fn new() -> Kept
        ensures { result ≡ first }
    {
        Kept {
            console: Console::new(),
            report: Report::new(),
        }
    }

    // After a request of the desk, or after output: the report stays.
    pub fn with_console(self, console: Console) -> Kept
        ensures { result ≡ besides console self.report }
    {
        let report = self.report;
        Kept {
            console: console,
            report: report,
        }
    }
}

// Answers `report`: a fresh report.
pub fn answer_fresh(k: Kept, out: &mut [u8]) -> Kept
    ensures { kept_of result out.new ≡ fresh_answer (kept_of k out.old) }
{
    let c = k.console;
    let end = console_answers::put_done(out, c.at, 0);
    let at = console_answers::put_end(out, end);
    Kept {
        console: c.with_output(at),
        report: Report::new(),
    }
}

// Adds `ok 0`, or the refusal, of a judgement that was handed in.
fn put_taken(out: &mut [u8], at: usize, a: Result<(), Refusal>) -> usize
    ensures { page result out.new ≡ added (taken_text (answer a)) (page at out.old) }
{
    match a {
        Ok(()) => console_answers::put_done(out, at, 0),
        Err(refusal) => console_answers::put_refusal(out, at, refusal),
    }
}

// Answers `take OCTETS`.
pub fn answer_take(k: Kept, input: &[u8], out: &mut [u8]) -> Kept
    ensures { kept_of result out.new ≡ take_answer input.now (kept_of k out.old) }
{
    let c = k.console;
    let kept = k.report;
    let t = kept.take(input);
    let a = t.answer;
    let next = t.report;
    let end = put_taken(out, c.at, a);
    let at = console_answers::put_end(out, end);
    Kept {
        console: c.with_output(at),
        report: next,
    }
}

// Adds the printed report's answer with this room.
fn put_print(r: Report, room: &mut [u8], out: &mut [u8], at: usize) -> usize
    ensures { page result out.new ≡ added (write_text (fill (report_text r) room.old)) (page at out.old) }
{
    let w = r.print(room);
    let end = console_answers::put_written(out, at, w, room);
    console_answers::put_room_end(out, end, rooms::is_kept(room, entries::count_of(w)))
}

// Adds the printed report's answer with a fresh room of n octets.
fn put_print_fresh(r: Report, n: usize, out: &mut [u8], at: usize) -> usize
    requires { n ≤ most_room }
    ensures { page result out.new ≡ added (write_text (fill (report_text r) (octet_room n))) (page at out.old) }
{
    let mut room = [rooms::OCTET_FILL; ROOM];
    put_print(r, &mut room[0..n], out, at)
}

// Adds the answer to `print ROOM`.
fn put_print_answer(r: Report, n: usize, out: &mut [u8], at: usize) -> usize
    ensures { page result out.new ≡ added (print_answer n r) (page at out.old) }
{
    if n > ROOM {
        return console_answers::put_bad(out, at);
    }
    put_print_fresh(r, n, out, at)
}

// Answers `print ROOM`.
pub fn answer_print(k: Kept, n: usize, out: &mut [u8]) -> Kept
    ensures { kept_of result out.new ≡ prints_answer n (kept_of k out.old) }
{
    let c = k.console;
    let at = put_print_answer(k.report, n, out, c.at);
    k.with_console(c.with_output(at))
}

// The same of a number from 113 on.
fn place_past(which: usize) -> usize
    requires { 113 ≤ which }
    ensures { result ≡ place_past which }
{
    if which < 140 {
        return count::ALL;
    }
    if which < 144 {
        return which - 124;
    }
    if which < 200 {
        return count::ALL;
    }
    if which < 239 {
        return which - 180;
    }
    count::ALL
}

// The place of the count that the console calls so: the first five from 0 on, 100 and a refusal's number, 200 and a property's; past all for
// none.
fn place_of(which: usize) -> usize
    ensures { result ≡ place_named which }
{
    if which < 5 {
        return which;
    }
    if which < 101 {
        return count::ALL;
    }
    if which < 106 {
        return which - 96;
    }
    if which < 107 {
        return count::ALL;
    }
    if which < 113 {
        return which - 97;
    }
    place_past(which)
}

// Answers `count WHICH NUMBER`, which is no entry: a count becomes that number.
pub fn answer_count(k: Kept, which: usize, number: usize, out: &mut [u8]) -> Kept
    ensures { kept_of result out.new ≡ count_answer which number (kept_of k out.old) }
{
    let c = k.console;
    let place = place_of(which);
    if place >= count::ALL {
        return k.with_console(c.answer_bad(out));
    }
    if number > limit::LARGEST {
        return k.with_console(c.answer_bad(out));
    }
    let kept = k.report;
    let mut counts = kept.counts;
    counts[place] = number as u32;
    let end = console_answers::put_done(out, c.at, number);
    let at = console_answers::put_end(out, end);
    Kept {
        console: c.with_output(at),
        report: Report { counts: counts },
    }
}
