// The answer to a line: its request, handed to the call that it names.
ghost use Rattle.std.specs.Prelude.{◌≡◌};
ghost use Rattle.console_desk.specs.DeskAnswers.{state_of, with_pool};
ghost use Rattle.program_output.specs.Pages.{page, added};
ghost use Rattle.console_report.specs.ReportAnswers.{kept_of};
ghost use Rattle.console_watch.specs.WatchAnswers.{watching_of, with_buffer};
ghost use Rattle.console.specs.Dispatch.{entry_text, desk_turn, report_turn, merge_text, WatchTurn, all_of, AnswerTo, AnswerIn, AnswerLine};

use console_desk::{Change, Console, Look};
use console_entries::entries;
use console_entries::entries::Writer;
use console_report::Kept;
use console_requests::{DeskCall, EntryCall, MergeCall, Name, ReportCall, Request, WatchCall};
use console_watch::Session;
use property_table::Edition;

// The most octets of a line, its LF and a CR before it not counted.
const LINE: usize = 140000;

// The most octets that such a line can send.
const OCTETS: usize = 70000;

// Adds the answer to a request to an entry.
fn put_entry_answer(e: EntryCall, q: Request, sent: &[u8], out: &mut [u8], at: usize) -> usize
    ensures { page result out.new ≡ added (entry_text e q.first q.second q.third sent.now) (page at out.old) }
{
    let n = q.first;
    let k = q.second;
    let m = q.third;
    match e {
        EntryCall::Judge => entries::put_judge_answer(Edition::First, sent, out, at),
        EntryCall::Read => entries::put_read_answer(Edition::First, n, k, sent, out, at),
        EntryCall::Fold => entries::put_write_answer(Writer::Fold, n, sent, out, at),
        EntryCall::Escape => entries::put_write_answer(Writer::Escape, n, sent, out, at),
        EntryCall::Unescape => entries::put_write_answer(Writer::Unescape, n, sent, out, at),
        EntryCall::Encode => entries::put_encode_answer(n, k, sent, out, at),
        EntryCall::Decode => entries::put_decode_answer(n, k, sent, out, at),
        EntryCall::FoldIn => entries::put_fold_answer(n, k, m, sent, out, at),
        EntryCall::Offset => entries::put_offset_answer(sent, out, at),
        EntryCall::JudgeIn => entries::put_judge_in_answer(n, sent, out, at),
        EntryCall::ReadIn => entries::put_read_in_answer(n, k, m, sent, out, at),
        EntryCall::TakeIn => entries::put_write_answer(Writer::TakeIn, n, sent, out, at),
        EntryCall::GiveOut => entries::put_write_answer(Writer::GiveOut, n, sent, out, at),
    }
}

// Answers a request of the desk.
fn answer_desk(
    d: DeskCall,
    q: Request,
    c: Console,
    sent: &[u8],
    pool: &mut [u8],
    out: &mut [u8],
) -> Console
    ensures { with_pool (state_of result out.new) pool.new ≡ desk_turn d q.first q.second sent.now (state_of c out.old) pool.old }
{
    let n = q.first;
    let k = q.second;
    match d {
        DeskCall::Desk => console_desk::answer_desk(c, n, k, pool, out),
        DeskCall::Open => console_desk::answer_change(Change::Open, c, n, k, sent, pool, out),
        DeskCall::Add => console_desk::answer_change(Change::Add, c, n, k, sent, pool, out),
        DeskCall::Check => console_desk::answer_look(Look::Check, c, n, pool, out),
        DeskCall::Show => console_desk::answer_look(Look::Show, c, n, pool, out),
        DeskCall::Held => console_desk::answer_look(Look::Held, c, n, pool, out),
        DeskCall::Release => console_desk::answer_change(Change::Release, c, n, k, sent, pool, out),
        DeskCall::Pool => console_desk::answer_pool(c, n, k, pool, out),
        DeskCall::Next => console_desk::answer_next(c, n, out),
    }
}

// Answers a request of the report.
fn answer_report(r: ReportCall, q: Request, k: Kept, sent: &[u8], out: &mut [u8]) -> Kept
    ensures { kept_of result out.new ≡ report_turn r q.first q.second sent.now (kept_of k out.old) }
{
    match r {
        ReportCall::Report => console_report::answer_fresh(k, out),
        ReportCall::Take => console_report::answer_take(k, sent, out),
        ReportCall::Print => console_report::answer_print(k, q.first, out),
        ReportCall::Count => console_report::answer_count(k, q.first, q.second, out),
    }
}

// Adds the answer to a request of two edits.
fn put_merge_answer(m: MergeCall, q: Request, sent: &[u8], out: &mut [u8], at: usize) -> usize
    ensures { page result out.new ≡ added (merge_text m q.first sent.now) (page at out.old) }
{
    match m {
        MergeCall::Plan => console_merge::put_plan_answer(q.first, sent, out, at),
        MergeCall::CheckPlan => console_merge::put_check_answer(sent, out, at),
    }
}

// Answers a request of the reader of chunks.
fn answer_watch(
    w: WatchCall,
    q: Request,
    s: Session,
    sent: &[u8],
    buffer: &mut [u8],
    out: &mut [u8],
) -> Session
    ensures { WatchTurn w q.first q.second sent.now (with_buffer (watching_of s out.old) buffer.old) (with_buffer (watching_of result out.new) buffer.new) }
{
    let n = q.first;
    let k = q.second;
    match w {
        WatchCall::Begin => console_watch::answer_begin(s, n, buffer, out),
        WatchCall::Chunk => console_watch::answer_chunk(s, sent, buffer, out),
        WatchCall::End => console_watch::answer_end(s, buffer, out),
        WatchCall::Buffer => console_watch::answer_buffer(s, n, k, buffer, out),
        WatchCall::Claim => console_watch::answer_claim(s, n, out),
    }
}

// Answers a request.
fn answer_request(
    q: Request,
    s: Session,
    sent: &[u8],
    pool: &mut [u8],
    buffer: &mut [u8],
    out: &mut [u8],
) -> Session
    ensures { AnswerTo q sent.now (all_of s out.old buffer.old pool.old) (all_of result out.new buffer.new pool.new) }
{
    let k = s.kept;
    let c = k.console;
    let name = q.name;
    match name {
        Name::ToEntry(e) => {
            let at = put_entry_answer(e, q, sent, out, c.at);
            s.with_output(at)
        }
        Name::ToDesk(d) => s.with_kept(k.with_console(answer_desk(d, q, c, sent, pool, out))),
        Name::ToReport(r) => s.with_kept(answer_report(r, q, k, sent, out)),
        Name::ToMerge(m) => {
            let at = put_merge_answer(m, q, sent, out, c.at);
            s.with_output(at)
        }
        Name::ToWatch(w) => answer_watch(w, q, s, sent, buffer, out),
    }
}

// Answers a line, with room for the octets that it sends.
fn answer_in(
    s: Session,
    line: &[u8],
    room: &mut [u8],
    pool: &mut [u8],
    buffer: &mut [u8],
    out: &mut [u8],
) -> Session
    ensures { AnswerIn line.now room.old (all_of s out.old buffer.old pool.old) (all_of result out.new buffer.new pool.new) }
{
    let Some(q) = console_requests::request_of(line, room) else {
        return s.answer_bad(out);
    };
    answer_request(
        q,
        s,
        octets::slices::part(room, 0, q.count),
        pool,
        buffer,
        out,
    )
}

// Answers a line without its end.
pub fn answer_line(
    s: Session,
    line: &[u8],
    pool: &mut [u8],
    buffer: &mut [u8],
    out: &mut [u8],
) -> Session
    ensures { AnswerLine line.now (all_of s out.old buffer.old pool.old) (all_of result out.new buffer.new pool.new) }
{
    if line.len() > LINE {
        return s.answer_bad(out);
    }
    let mut room = [0u8; OCTETS];
    answer_in(s, line, &mut room, pool, buffer, out)
}
