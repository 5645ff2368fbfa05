// The requests of the reader of chunks, and its state and buffer, which are kept beside desk, output and report.
#![tactic(auto)]

ghost use Rattle.std.specs.Prelude.{◌≡◌, true, ◌≤◌, length};
ghost use Rattle.program_output.specs.Pages.{page, added};
ghost use Rattle.console_watch.specs.WatchAnswers.{most_buffer, watching_of, with_buffer, first, session, shown_at, lent_length, says_bad, begin_answer, buffer_answer, claim_answer, done_line, claims, arrived_text, next_of, ChunkLent, ChunkTurn, EndTurn};

use console_entries::rooms;
use console_report::Kept;
use numbers::limit;
use watch::{Arrived, Watch};

// The most octets of a buffer.
pub const BUFFER: usize = 20000;

// What is kept from request to request: desk, output and report, the state of the reader of chunks, and how many octets of buffer are lent to it.
#[derive(Clone, Copy)]
pub struct Session {
    pub kept: Kept,
    pub watch: Watch,
    pub size: usize,
}

impl Session {
    // Before the first request: a fresh state, and an empty buffer.
    pub fn new() -> Session
        ensures { result ≡ first }
    {
        Session {
            kept: Kept::new(),
            watch: Watch::new(),
            size: 0,
        }
    }

    // After a request of entries, desk or report: state and buffer stay.
    pub fn with_kept(self, kept: Kept) -> Session
        ensures { result ≡ session kept self.watch self.size }
    {
        let watch = self.watch;
        Session {
            kept: kept,
            watch: watch,
            size: self.size,
        }
    }

    // After the output was added to or sent on.
    pub fn with_output(self, at: usize) -> Session
        ensures { result ≡ shown_at at self }
    {
        let k = self.kept;
        let c = k.console;
        self.with_kept(k.with_console(c.with_output(at)))
    }

    // Where the output stands.
    fn at(self) -> usize
        ensures { result ≡ self.kept.console.at }
    {
        let k = self.kept;
        let c = k.console;
        c.at
    }

    // Answers `bad request`.
    pub fn answer_bad(self, out: &mut [u8]) -> Session
        ensures { watching_of result out.new ≡ says_bad (watching_of self out.old) }
    {
        let at = console_answers::put_bad(out, self.at());
        self.with_output(at)
    }
}

// Adds `ok NUMBER`, a whole line.
fn put_done_line(out: &mut [u8], at: usize, n: usize) -> usize
    ensures { page result out.new ≡ added (done_line n) (page at out.old) }
{
    let end = console_answers::put_done(out, at, n);
    console_answers::put_end(out, end)
}

// Answers `begin LENGTH`: a fresh state over so many octets of buffer.
pub fn answer_begin(s: Session, n: usize, buffer: &mut [u8], out: &mut [u8]) -> Session
    ensures { with_buffer (watching_of result out.new) buffer.new ≡ begin_answer n (watching_of s out.old) buffer.old }
{
    if n > buffer.len() {
        return s.answer_bad(out);
    }
    rooms::fill(&mut buffer[0..n]);
    let at = put_done_line(out, s.at(), 0);
    let next = s.with_output(at);
    let kept = next.kept;
    Session {
        kept: kept,
        watch: Watch::new(),
        size: n,
    }
}

// A state that claims so many octets of the line that has not ended.
fn claiming(w: Watch, n: usize) -> Watch
    ensures { result ≡ claims n w }
{
    let card = w.card;
    Watch {
        known: w.known,
        fault: w.fault,
        place: w.place,
        start: w.start,
        open: n,
        tail: w.tail,
        card: card,
    }
}

// Answers `claim COUNT`, which is no entry: the state's count of octets of the line that has not ended becomes that number.
pub fn answer_claim(s: Session, n: usize, out: &mut [u8]) -> Session
    ensures { watching_of result out.new ≡ claim_answer n (watching_of s out.old) }
{
    if n > limit::LARGEST {
        return s.answer_bad(out);
    }
    let at = put_done_line(out, s.at(), n);
    let next = s.with_output(at);
    let kept = next.kept;
    Session {
        kept: kept,
        watch: claiming(s.watch, n),
        size: s.size,
    }
}

// How many octets of a buffer are lent.
fn lent_length(s: Session, buffer: &[u8]) -> usize
    ensures value { result ≡ lent_length s.size buffer.now }
    ensures upper_bound { (result ≤ length buffer.now) × (result ≤ most_buffer) }
{
    let most = octets::slices::least(buffer.len(), BUFFER);
    octets::slices::least(s.size, most)
}

// Answers `buffer FROM COUNT`, which is no entry: that part of the buffer that is lent.
pub fn answer_buffer(
    s: Session,
    from: usize,
    count: usize,
    buffer: &[u8],
    out: &mut [u8],
) -> Session
    ensures { watching_of result out.new ≡ buffer_answer from count (watching_of s out.old) buffer.now }
{
    let n = lent_length(s, buffer);
    let k = s.kept;
    let c = k.console;
    s.with_kept(k.with_console(console_desk::answer_part(c, from, count, &buffer[0..n], out)))
}

// Answers `end`: the verdict of the state over the buffer that is lent, which is only read.
pub fn answer_end(s: Session, buffer: &[u8], out: &mut [u8]) -> Session
    ensures { EndTurn (watching_of s out.old) buffer.now (watching_of result out.new) }
{
    let n = lent_length(s, buffer);
    let w = s.watch;
    let v = w.end(&buffer[0..n]);
    let end = console_answers::put_verdict(out, s.at(), v);
    let at = console_answers::put_end(out, end);
    s.with_output(at)
}

// Adds `ok 0`, or the refusal and whether the buffer is as it was.
fn put_arrived(out: &mut [u8], at: usize, a: Arrived, kept: bool) -> usize
    ensures { page result out.new ≡ added (arrived_text a kept) (page at out.old) }
{
    match a {
        Arrived::Next(_) => put_done_line(out, at, 0),
        Arrived::Refused(number, place) => {
            let end = console_answers::put_no(out, at, number, place);
            console_answers::put_room_end(out, end, kept)
        }
    }
}

// The state after a chunk; a refused one leaves it as it was.
fn next_of(a: Arrived, w: Watch) -> Watch
    ensures { result ≡ next_of a w }
{
    match a {
        Arrived::Next(v) => v,
        Arrived::Refused(_, _) => w,
    }
}

// Hands a chunk to the state with the buffer that is lent, of which a copy is kept to look at.
fn answer_lent(s: Session, chunk: &[u8], lent: &mut [u8], out: &mut [u8]) -> Session
    requires { length lent.old ≤ most_buffer }
    ensures { ChunkLent chunk.now (watching_of s out.old) lent.old (watching_of result out.new) lent.new }
{
    let n = lent.len();
    let mut before = [0u8; BUFFER];
    octets::copying::copy_in(&mut before, lent);
    let w = s.watch;
    let a = w.chunk(lent, chunk);
    let kept = program_numbers::same(&before[0..n], lent);
    let at = put_arrived(out, s.at(), a, kept);
    let next = s.with_output(at);
    let k = next.kept;
    Session {
        kept: k,
        watch: next_of(a, w),
        size: s.size,
    }
}

// Answers `chunk OCTETS`.
pub fn answer_chunk(s: Session, chunk: &[u8], buffer: &mut [u8], out: &mut [u8]) -> Session
    ensures { ChunkTurn chunk.now (with_buffer (watching_of s out.old) buffer.old) (with_buffer (watching_of result out.new) buffer.new) }
{
    let n = lent_length(s, buffer);
    answer_lent(s, chunk, &mut buffer[0..n], out)
}
