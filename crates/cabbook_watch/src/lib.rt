// `watch`: files that are judged while they arrive, so many octets at a time, with a line on a terminal that tells how far that is.
#![tactic(auto)]

ghost use Rattle.std.specs.Prelude.{IfOk};
ghost use Rattle.cabbook_output.specs.Ends.{Status};

use cabbook_messages::sentences;
use cabbook_options::arguments;
use cabbook_output::{Ended, File};
use cabbook_tables::status;
use numbers::limit;
use octets::slices::part;
use program_host::{Host, STDERR};
use program_output::put_all;
use reader::Verdict;
use watch::{Arrived, Watch};

// The size of a chunk where no other is named.
const USUAL_CHUNK: usize = 4096;

// The most turns of a file: each but the last brings an octet.
const TURNS: usize = limit::READ_ROOM + 1;

// What came of a file: the verdict, and how many octets.
#[derive(Clone, Copy, Debug, PartialEq, Eq)]
pub struct Came {
    pub verdict: Verdict,
    pub octets: usize,
}

// Adds what is known of the octets so far.
fn put_known(room: &mut [u8], at: usize, w: Watch) -> usize {
    if w.known == watch::NO_FAULT {
        return put_all(room, at, b", no fault so far");
    }
    let start = put_all(room, at, b", refused ");
    sentences::put_amount(room, start, w.fault.number() as usize, b"")
}

// Writes over the line on standard error, where that is asked for: how many octets of a file came, and what is known of them.
fn tell_progress(host: &mut Host, tells: bool, path: &[u8], w: Watch, octets: usize) {
    if !tells {
        return;
    }
    let mut room = program_host::large_buffer();
    let start = put_all(&mut room, 0, b"\r\x1b[K");
    let name_end = program_visible::put_visible(&mut room, start, path);
    let colon_end = put_all(&mut room, name_end, b": ");
    let count_end = sentences::put_count(&mut room, colon_end, octets, b" octet");
    let n = put_known(&mut room, count_end, w);
    let _ = cabbook_output::send(host, STDERR, &room, n);
}

// Takes the line away again.
fn clear_progress(host: &mut Host, tells: bool) {
    if tells {
        host.write_all(STDERR, b"\r\x1b[K");
    }
}

// The state after a chunk.
fn take_chunk(w: Watch, buffer: &mut [u8], chunk: &[u8]) -> Watch {
    let a = w.chunk(buffer, chunk);
    let Arrived::Next(next) = a else {
        return w;
    };
    next
}

// Reads the next octets of a file behind the first n of the copy, so many as a chunk has, as far as there is room.
fn read_chunk(
    host: &mut Host,
    fd: i32,
    path: &[u8],
    size: usize,
    n: usize,
    copy: &mut [u8],
) -> Option<usize> {
    if n >= copy.len() {
        return Some(0);
    }
    let end = n + size.min(copy.len() - n);
    program_files::fetch(host, fd, path, &mut copy[n..end])
}

// Reads a file to the start of the copy, so many octets at a time, and watches each chunk as it comes; each turn brings an octet or is the last. Answers what
// came, where the file could be read.
fn watch_all(
    host: &mut Host,
    path: &[u8],
    fd: i32,
    size: usize,
    tells: bool,
    copy: &mut [u8],
    buffer: &mut [u8],
) -> Option<Came> {
    let mut w = Watch::new();
    let mut n: usize = 0;
    for _ in 0..TURNS {
        let more = read_chunk(host, fd, path, size, n, copy)?;
        if more == 0 {
            break;
        }
        let next = n.saturating_add(more).min(copy.len());
        w = take_chunk(w, buffer, part(copy, n, next));
        tell_progress(host, tells, path, w, next);
        n = next;
    }
    Some(Came {
        verdict: w.end(buffer),
        octets: n,
    })
}

// Watches the octets of a file that is open, prints its row, and answers the exit status.
fn watch_open(host: &mut Host, path: &[u8], fd: i32, size: usize) -> Ended
    ensures { IfOk result Status }
{
    let mut copy = [0u8; limit::READ_ROOM];
    let mut buffer = [0u8; limit::OCTETS];
    let tells = host.tells_terminal();
    let came = watch_all(host, path, fd, size, tells, &mut copy, &mut buffer);
    clear_progress(host, tells);
    let Some(c) = came else {
        return Ok(status::FAILED);
    };
    let file = File {
        path,
        octets: part(&copy, 0, c.octets),
    };
    cabbook_check::print_verdict(host, file, c.verdict)
}

// Watches the file of that name, `-` for standard input.
fn watch_file(host: &mut Host, path: &[u8], size: usize) -> Ended
    ensures { IfOk result Status }
{
    let Some(fd) = program_files::open_named(host, path) else {
        return Ok(status::FAILED);
    };
    let ended = watch_open(host, path, fd, size);
    host.close(fd);
    ended
}

// Watches the file that argument i names.
fn watch_argument(host: &mut Host, i: usize, size: usize) -> Ended
    ensures { IfOk result Status }
{
    let mut path = program_host::large_buffer();
    let n = host.arg(i, &mut path);
    watch_file(host, &path[..n], size)
}

// Watches each file that the arguments from `first` on name, as long as output can be written, where options end at that argument, if they end; none or 0 for a
// size stands for the usual one. Answers the highest status.
pub fn watch_files(
    host: &mut Host,
    first: Option<usize>,
    dashes: Option<usize>,
    count: usize,
    chunk: Option<usize>,
) -> Ended
    ensures { IfOk result Status }
{
    let size = match chunk {
        None | Some(0) => USUAL_CHUNK,
        Some(n) => n,
    };
    let mut status: u8 = status::ACCEPTED;
    let mut i = first.unwrap_or(count);
    while i < count {
        status = status.max(watch_argument(host, i, size)?);
        i = arguments::next_file(host, i + 1, dashes, count).unwrap_or(count);
    }
    Ok(status)
}
