// The depot in the morning: the desk, the uploads at it, and what is counted.
ghost use Rattle.std.specs.Prelude.{◌≡◌, ◌<◌, get_or};
ghost use Rattle.desk.specs.Steps.{release_step};
ghost use Rattle.numbers.specs.Limits as limit;
ghost use Rattle.numbers.specs.Refusals.{number};
ghost use Rattle.reader.specs.Outcome.{verdict};
ghost use Rattle.cabbook_morning.specs.Depot.{one_more, as_ticket, no_upload, begun, next_round, reclaimed_at, released_at, differed, counted, unread_counted};

use desk::Desk;
use numbers::limit;
use numbers::refusal::{Reason, Refusal};
use program_host::Host;
use reader::Verdict;

// An upload: the argument that names its file, 0 where there is no upload, the file's descriptor, and the ticket.
#[derive(Clone, Copy, Debug, PartialEq, Eq)]
pub struct Upload {
    pub file: usize,
    pub fd: i32,
    pub ticket: u32,
}

// The desk and the uploads at it, the argument from which on the next file is looked for, how many arguments there are, the one that ends the options, how many uploads run, the chunks' size, the width of the column of names, what was counted, and the tick of this round with the ticks of a round.
#[derive(Clone, Copy)]
pub struct Morning {
    pub desk: Desk,
    pub uploads: [Upload; limit::SLOTS],
    pub next: usize,
    pub count: usize,
    pub dashes: Option<usize>,
    pub running: usize,
    pub chunk: usize,
    pub width: usize,
    pub accepted: usize,
    pub refused: usize,
    pub unread: usize,
    pub differing: usize,
    pub reclaimed: usize,
    pub tick: u32,
    pub step: u32,
}

// One more, or the same where there is no larger number.
pub(crate) fn more(n: usize) -> usize
    ensures { result ≡ one_more n }
{
    n.saturating_add(1)
}

// A number as a ticket, 0 where it has more than 32 bits.
pub(crate) fn ticket_of(n: usize) -> u32
    ensures { result ≡ as_ticket n }
{
    if n > limit::LARGEST {
        return 0;
    }
    n as u32
}

// No upload.
fn no_upload() -> Upload
    ensures { result ≡ no_upload }
{
    Upload {
        file: 0,
        fd: 0,
        ticket: 0,
    }
}

// Before the first upload, on a desk of so many slots.
pub(crate) fn begin(
    slots: usize,
    step: u32,
    next: usize,
    count: usize,
    dashes: Option<usize>,
    chunk: usize,
    width: usize,
) -> Morning
    ensures { result ≡ begun slots step next count dashes chunk width }
{
    let t = Desk::new(slots);
    let d = t.desk;
    let none = no_upload();
    let uploads = [none; limit::SLOTS];
    Morning {
        desk: d,
        uploads,
        next,
        count,
        dashes,
        running: 0,
        chunk,
        width,
        accepted: 0,
        refused: 0,
        unread: 0,
        differing: 0,
        reclaimed: 0,
        tick: 0,
        step,
    }
}

// Begins a round: its tick is higher by the ticks of a round, as far as ticks go.
pub(crate) fn begin_round(mut m: Morning) -> Morning
    ensures { result ≡ next_round m }
{
    m.tick = m.tick.saturating_add(m.step);
    m
}

// Releases upload k and closes its file.
pub(crate) fn release(host: &mut Host, mut m: Morning, k: usize, pool: &mut [u8]) -> Morning
    requires { k < limit.slots }
    ensures value { result ≡ released_at k (release_step m.desk pool.old (get_or m.uploads k no_upload).ticket).desk m }
    ensures pool_after { pool.new ≡ (release_step m.desk pool.old (get_or m.uploads k no_upload).ticket).pool }
{
    let upload = m.uploads[k];
    let d = m.desk;
    let t = d.release(pool, upload.ticket);
    let next = t.desk;
    m.desk = next;
    host.close(upload.fd);
    m.uploads[k] = no_upload();
    m.running = cabbook_positions::before(m.running);
    m
}

// Counts an upload that does not hold its file's octets.
fn count_difference(mut m: Morning, same: bool) -> Morning
    ensures { result ≡ differed same m }
{
    if same {
        return m;
    }
    m.differing = more(m.differing);
    m
}

// Counts an upload whose session was reclaimed: its ticket is not open.
fn count_reclaimed(n: usize, reason: Reason) -> usize
    ensures { result ≡ reclaimed_at (number reason) n }
{
    match reason {
        Reason::NotOpen => more(n),
        _ => n,
    }
}

// Counts a verdict, and whether the upload holds its file's octets.
pub(crate) fn count_verdict(m: Morning, v: Verdict, same: bool) -> Morning
    ensures { result ≡ counted (verdict v) same m }
{
    let mut next = count_difference(m, same);
    match v {
        Ok(_) => {
            next.accepted = more(next.accepted);
            next
        }
        Err(Refusal(reason, _)) => {
            next.refused = more(next.refused);
            next.reclaimed = count_reclaimed(next.reclaimed, reason);
            next
        }
    }
}

// Counts a file that can't be read.
pub(crate) fn count_unread(mut m: Morning) -> Morning
    ensures { result ≡ unread_counted m }
{
    m.unread = more(m.unread);
    m
}
