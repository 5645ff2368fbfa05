// The calls of the desk, and what is kept from one to the next.
#![tactic(auto)]

ghost use Rattle.std.specs.Prelude.{◌≡◌, true, ◌+◌, ◌≤◌, length};
ghost use Rattle.numbers.specs.Limits as limit;
ghost use Rattle.desk.specs.Steps.{turned};
ghost use Rattle.program_output.specs.Pages.{page, added};
ghost use Rattle.console_desk.specs.DeskAnswers.{state_of, with_pool, first, moved, ends_line, callable, ticked, lies, says_bad, after_turn, desk_answer, next_answer, change_of, change_answer, look_text, look_answer, part_of, pool_answer};

use console_entries::rooms;
use desk::{Desk, Turn};
use numbers::limit;

// What is kept from request to request: the desk, how many octets of pool are lent to it, and where the output stands.
#[derive(Clone, Copy)]
pub struct Console {
    pub desk: Desk,
    pub size: usize,
    pub at: usize,
}

// The calls that hand the next desk back.
#[derive(Clone, Copy)]
pub enum Change {
    Open,
    Add,
    Release,
}

// The calls that leave the desk as it is.
#[derive(Clone, Copy)]
pub enum Look {
    Check,
    Show,
    Held,
}

impl Console {
    // A refused desk and an empty pool.
    pub fn new() -> Console
        ensures { result ≡ first }
    {
        let t = Desk::new(0);
        let d = t.desk;
        Console {
            desk: d,
            size: 0,
            at: 0,
        }
    }

    // After the output was added to or sent on.
    pub fn with_output(mut self, at: usize) -> Console
        ensures { result ≡ moved self at }
    {
        self.at = at;
        self
    }

    // Ends the line of an answer that was added up to there.
    fn end_line(self, out: &mut [u8], end: usize) -> Console
        ensures { state_of result out.new ≡ ends_line (state_of self out.old) (page end out.old) }
    {
        let at = console_answers::put_end(out, end);
        self.with_output(at)
    }

    // Answers `bad request`.
    pub fn answer_bad(self, out: &mut [u8]) -> Console
        ensures { state_of result out.new ≡ says_bad (state_of self out.old) }
    {
        let at = console_answers::put_bad(out, self.at);
        self.with_output(at)
    }
}

// Adds the answer of a call, and keeps the next desk that it hands back.
fn answer_turn(t: Turn, size: usize, out: &mut [u8], at: usize) -> Console
    ensures { state_of result out.new ≡ after_turn t size (page at out.old) }
{
    let a = t.answer;
    let d = t.desk;
    let end = console_answers::put_answer(out, at, a);
    Console {
        desk: d,
        size: size,
        at: console_answers::put_end(out, end),
    }
}

// Answers `desk SLOTS POOL`: a new desk over so many octets of pool.
pub fn answer_desk(c: Console, slots: usize, n: usize, pool: &mut [u8], out: &mut [u8]) -> Console
    ensures { with_pool (state_of result out.new) pool.new ≡ desk_answer slots n (state_of c out.old) pool.old }
{
    if n > pool.len() {
        return c.answer_bad(out);
    }
    rooms::fill(&mut pool[0..n]);
    answer_turn(Desk::new(slots), n, out, c.at)
}

// Answers `next TICKET`, which is no entry: the desk is as one that has given out all tickets before it.
pub fn answer_next(c: Console, ticket: usize, out: &mut [u8]) -> Console
    ensures { state_of result out.new ≡ next_answer ticket (state_of c out.old) }
{
    if ticket > limit::LARGEST {
        return c.answer_bad(out);
    }
    let d = c.desk;
    let es = d.entries;
    let stamps = d.stamps;
    let end = console_answers::put_done(out, c.at, ticket);
    Console {
        desk: Desk {
            entries: es,
            slots: d.slots,
            next: ticket as u32,
            tick: d.tick,
            stamps: stamps,
        },
        size: c.size,
        at: console_answers::put_end(out, end),
    }
}

// Whether a call has a number of 32 bits, and the pool that is lent is there.
fn is_callable(n: usize, size: usize, pool: &[u8]) -> bool
    ensures value { result ≡ callable n size pool.now }
    ensures n_le_largest { result ≡ true → (n ≤ limit.largest) × (size ≤ length pool.now) }
{
    if n > limit::LARGEST {
        return false;
    }
    size <= pool.len()
}

// Whether a call has a number and a tick of 32 bits, and the pool that is lent is there.
fn is_ticked(n: usize, tick: usize, size: usize, pool: &[u8]) -> bool
    ensures value { result ≡ ticked n tick size pool.now }
    ensures n_le_largest { result ≡ true → (n ≤ limit.largest) × (tick ≤ limit.largest) × (size ≤ length pool.now) }
{
    if tick > limit::LARGEST {
        return false;
    }
    is_callable(n, size, pool)
}

// Calls `open TRAM TICK`, `add TICKET TICK OCTETS` or `release TICKET` over the pool that is lent.
fn call(which: Change, d: Desk, t: u32, tick: u32, chunk: &[u8], pool: &mut [u8]) -> Turn
    ensures { turned result pool.new ≡ change_of which d pool.old t tick chunk.now }
{
    match which {
        Change::Open => d.open(pool, t, tick),
        Change::Add => d.add(pool, t, chunk, tick),
        Change::Release => d.release(pool, t),
    }
}

// Answers such a request; its numbers are a ticket or a tram's identifier, and a tick, 0 where it has none.
pub fn answer_change(
    which: Change,
    c: Console,
    n: usize,
    tick: usize,
    chunk: &[u8],
    pool: &mut [u8],
    out: &mut [u8],
) -> Console
    ensures { with_pool (state_of result out.new) pool.new ≡ change_answer which n tick chunk.now (state_of c out.old) pool.old }
{
    let size = c.size;
    if is_ticked(n, tick, size, pool) {
        let t = call(
            which,
            c.desk,
            n as u32,
            tick as u32,
            chunk,
            &mut pool[0..size],
        );
        return answer_turn(t, size, out, c.at);
    }
    c.answer_bad(out)
}

// Adds what `check TICKET`, `show TICKET` or `held TICKET` answers, over the pool that is lent.
fn put_look(which: Look, d: Desk, t: u32, pool: &[u8], out: &mut [u8], at: usize) -> usize
    ensures { page result out.new ≡ added (look_text which d pool.now t) (page at out.old) }
{
    match which {
        Look::Check => console_answers::put_verdict(out, at, d.judge(pool, t)),
        Look::Show => console_answers::hex::put_octets(out, at, d.show(pool, t)),
        Look::Held => console_answers::put_answer(out, at, d.held(pool, t)),
    }
}

// Answers such a request.
pub fn answer_look(which: Look, c: Console, n: usize, pool: &[u8], out: &mut [u8]) -> Console
    ensures { state_of result out.new ≡ look_answer which n (state_of c out.old) pool.now }
{
    let size = c.size;
    if is_callable(n, size, pool) {
        let end = put_look(which, c.desk, n as u32, &pool[0..size], out, c.at);
        return c.end_line(out, end);
    }
    c.answer_bad(out)
}

// Whether so many octets from a place on lie in a pool.
fn lies_inside(from: usize, count: usize, lent: &[u8]) -> bool
    ensures value { result ≡ lies from count lent.now }
    ensures count_in_bounds { result ≡ true → from + count ≤ length lent.now }
{
    if from > lent.len() {
        return false;
    }
    count <= lent.len() - from
}

// Answers with so many octets from a place on, where they lie in those that are lent.
pub fn answer_part(c: Console, from: usize, count: usize, lent: &[u8], out: &mut [u8]) -> Console
    ensures { state_of result out.new ≡ part_of from count (state_of c out.old) lent.now }
{
    if lies_inside(from, count, lent) {
        let end = console_answers::hex::put_octets(out, c.at, &lent[from..from + count]);
        return c.end_line(out, end);
    }
    c.answer_bad(out)
}

// Answers `pool FROM COUNT`, which is no entry: that part of the pool that is lent.
pub fn answer_pool(c: Console, from: usize, count: usize, pool: &[u8], out: &mut [u8]) -> Console
    ensures { state_of result out.new ≡ pool_answer from count (state_of c out.old) pool.now }
{
    let lent = octets::slices::part(pool, 0, c.size);
    answer_part(c, from, count, lent, out)
}
