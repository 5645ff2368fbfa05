// A morning: many files as uploads on one desk, as many at a time as it has slots, each opened with identifier 0, and a row for each.
#![tactic(auto)]

mod depot;
mod options;
mod printing;

ghost use Rattle.std.specs.Prelude.{◌<◌, ◌≤◌};
ghost use Rattle.numbers.specs.Limits as limit;
ghost use Rattle.reader.specs.Outcome.{verdict};
ghost use Rattle.cabbook_tables.specs.Statuses as status;
ghost use Rattle.cabbook_morning.specs.Turns.{Begun, Finished, AddedTo, Taken, FedWith, Fed, Turns};

use cabbook_options::arguments;
use depot::{Morning, Upload};
use desk::Desk;
use numbers::limit;
use numbers::refusal::Reason;
use program_host::Host;
use reader::Verdict;

// Whether the upload's octets are its file's: the whole file's, or those with which it starts.
fn compare(host: &mut Host, d: Desk, upload: Upload, whole: bool, pool: &[u8]) -> bool {
    let held = d.show(pool, upload.ticket);
    let mut room = [0u8; limit::READ_ROOM];
    host.rewind(upload.fd);
    let Some(n) = program_files::fetch(host, upload.fd, b"cabbook: a file", &mut room) else {
        return false;
    };
    if n < held.len() {
        return false;
    }
    if whole && n > held.len() {
        return false;
    }
    held == octets::slices::part(&room, 0, held.len())
}

// Ends upload k with a verdict: prints its row and releases it.
fn finish(
    host: &mut Host,
    m: Morning,
    k: usize,
    v: Verdict,
    whole: bool,
    pool: &mut [u8],
) -> Morning
    requires { k < limit.slots }
    ensures { Finished k (verdict v) m pool.old result pool.new }
{
    let upload = m.uploads[k];
    let d = m.desk;
    let same = compare(host, d, upload, whole, pool);
    let held = d.show(pool, upload.ticket);
    printing::print_row(
        host,
        upload.file,
        m.width,
        upload.ticket,
        held.len(),
        v,
        same,
    );
    depot::release(host, depot::count_verdict(m, v, same), k, pool)
}

// Opens upload k with the next file, if there is one; refusal 20 leaves the file for the next round.
fn take_file(host: &mut Host, mut m: Morning, k: usize, pool: &mut [u8]) -> Morning
    requires { k < limit.slots }
    ensures { Begun k m pool.old result pool.new }
{
    let Some(i) = arguments::next_file(host, m.next, m.dashes, m.count) else {
        m.next = m.count;
        return m;
    };
    m.next = i + 1;
    let Some(fd) = program_files::open_argument(host, i) else {
        return depot::count_unread(m);
    };
    let d = m.desk;
    let t = d.open(pool, 0, m.tick);
    m.desk = t.desk;
    match t.answer {
        Ok(ticket) => {
            m.uploads[k] = Upload {
                file: i,
                fd,
                ticket: depot::ticket_of(ticket),
            };
            m.running = depot::more(m.running);
            m
        }
        Err(r) => {
            host.close(fd);
            let reason = r.0;
            match reason {
                Reason::NoFreeSlot => {
                    m.next = i;
                    m
                }
                _ => {
                    printing::print_row(host, i, m.width, 0, 0, Err(r), true);
                    depot::count_verdict(m, Err(r), true)
                }
            }
        }
    }
}

// Adds a chunk to upload k, and ends it where the desk refuses that.
fn add_chunk(host: &mut Host, mut m: Morning, k: usize, chunk: &[u8], pool: &mut [u8]) -> Morning
    requires { k < limit.slots }
    ensures { AddedTo k chunk.now m pool.old result pool.new }
{
    let upload = m.uploads[k];
    let d = m.desk;
    let t = d.add(pool, upload.ticket, chunk, m.tick);
    m.desk = t.desk;
    match t.answer {
        Ok(_) => m,
        Err(r) => finish(host, m, k, Err(r), false, pool),
    }
}

// Reads a chunk of that size of an upload's file, as far as there is room.
fn read_chunk(host: &mut Host, upload: Upload, size: usize, room: &mut [u8]) -> Option<usize>
    ensures { Taken result size room.new }
{
    let n = size.min(room.len());
    program_files::fetch_argument(host, upload.file, upload.fd, &mut room[..n])
}

// Adds the octets that were read to the start of the room to upload k, or judges the upload where there are none.
fn feed_with(
    host: &mut Host,
    m: Morning,
    k: usize,
    got: Option<usize>,
    room: &[u8],
    pool: &mut [u8],
) -> Morning
    requires { k < limit.slots }
    ensures { FedWith k got room.now m pool.old result pool.new }
{
    let Some(n) = got else {
        return depot::release(host, depot::count_unread(m), k, pool);
    };
    if n == 0 {
        let upload = m.uploads[k];
        let d = m.desk;
        return finish(host, m, k, d.judge(pool, upload.ticket), true, pool);
    }
    add_chunk(host, m, k, octets::slices::part(room, 0, n), pool)
}

// Adds the next chunk of its file to upload k, or at the file's end judges the upload.
fn feed(host: &mut Host, m: Morning, k: usize, pool: &mut [u8]) -> Morning
    requires { k < limit.slots }
    ensures { Fed k m pool.old result pool.new }
{
    let upload = m.uploads[k];
    let mut room = [0u8; limit::OCTETS];
    let got = read_chunk(host, upload, m.chunk, &mut room);
    feed_with(host, m, k, got, &room, pool)
}

// One turn of upload k.
fn turn(host: &mut Host, m: Morning, k: usize, pool: &mut [u8]) -> Morning
    requires { k < limit.slots }
    ensures { Turns k m pool.old result pool.new }
{
    let upload = m.uploads[k];
    if upload.file == 0 {
        return take_file(host, m, k, pool);
    }
    feed(host, m, k, pool)
}

// One turn of each upload.
fn run_round(host: &mut Host, m: Morning, pool: &mut [u8]) -> Morning {
    let mut now = depot::begin_round(m);
    for k in 0..limit::SLOTS {
        now = turn(host, now, k, pool);
    }
    now
}

// Runs round after round until no file is left; the count of rounds only shows that this ends.
fn run_rounds(host: &mut Host, m: Morning, pool: &mut [u8]) -> Morning {
    let mut now = m;
    for _ in 0..u64::MAX {
        if now.next >= now.count && now.running == 0 {
            return now;
        }
        now = run_round(host, now, pool);
    }
    now
}

// Runs the rounds with as much of a pool as so many slots have.
fn run_on(host: &mut Host, slots: usize, m: Morning, pool: &mut [u8]) -> Morning
    requires { slots ≤ limit.slots }
{
    let n = (slots * limit::OCTETS).min(pool.len());
    run_rounds(host, m, &mut pool[..n])
}

// Plays a morning on a desk of so many slots with the files that the arguments from `first` on name, where options end at that argument, if they end; none or 0
// for a number stands for the usual one. Answers the exit status.
pub fn play(
    host: &mut Host,
    first: Option<usize>,
    dashes: Option<usize>,
    count: usize,
    chunk: Option<usize>,
    tick: Option<usize>,
    slots: Option<usize>,
) -> u8
    ensures { result ≤ status.failed }
{
    let from = first.unwrap_or(count);
    let width = options::widest(host, from, dashes, count);
    printing::print_titles(host, width);
    let mut pool = [0u8; limit::POOL];
    let size = options::or_usual(chunk, options::USUAL_CHUNK);
    let step = depot::ticket_of(options::or_usual(tick, options::USUAL_TICK));
    let places = options::or_usual(slots, options::USUAL_SLOTS).min(limit::SLOTS);
    let begun = depot::begin(places, step, from, count, dashes, size, width);
    let m = run_on(host, places, begun, &mut pool);
    printing::print_summary(
        host,
        m.accepted,
        m.refused,
        m.reclaimed,
        m.unread,
        m.differing,
    )
}
