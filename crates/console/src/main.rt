// The console: answers each request line of standard input by calling the entry that it names.
#![tactic(auto)]

mod dispatch;
mod input;

use console_watch::Session;
use input::{Input, Line};
use numbers::limit;
use std::io;
use std::io::{Print, Read, Stdin, Stdout};

// The most octets of an answer: all of the pool, two digits an octet, and LF.
const ANSWER: usize = 2 * limit::POOL + 1;

// The octets of input that are read ahead.
const INPUT: usize = 262144;

// The octets of output that wait until they are sent on.
const OUTPUT: usize = 2097152;

// Sends on what waits, and answers that nothing waits any more.
fn send(to: Stdout, out: &[u8], at: usize) -> io::Result<usize> {
    to.write_all(octets::slices::part(out, 0, at))?;
    Ok(0)
}

// Makes room for an answer: what waits is sent on where there is less.
fn make_room(to: Stdout, s: Session, out: &[u8]) -> io::Result<Session> {
    let k = s.kept;
    let c = k.console;
    let at = c.at;
    if at > out.len() {
        return Ok(s.with_output(0));
    }
    if out.len() - at < ANSWER {
        return Ok(s.with_output(send(to, out, at)?));
    }
    Ok(s)
}

// Answers a line, or one that is too long; where there is no line the output is sent on.
fn answer(
    to: Stdout,
    s: Session,
    line: Line,
    long: bool,
    buffer: &[u8],
    pool: &mut [u8],
    watched: &mut [u8],
    out: &mut [u8],
) -> io::Result<Session> {
    if !line.found {
        let k = s.kept;
        let c = k.console;
        return Ok(s.with_output(send(to, out, c.at)?));
    }
    let ready = make_room(to, s, out)?;
    if long {
        return Ok(ready.answer_bad(out));
    }
    let text = console_words::without_cr(octets::slices::part(buffer, line.from, line.to));
    Ok(dispatch::answer_line(ready, text, pool, watched, out))
}

// Moves the octets from `from` up to `to` to the front, and answers how many they are.
fn move_down(buffer: &mut [u8], from: usize, to: usize) -> usize {
    let mut n: usize = 0;
    let mut i = from;
    while i < to {
        if i >= buffer.len() {
            return n;
        }
        buffer[n] = buffer[i];
        n += 1;
        i += 1;
    }
    n
}

// Reads once to the buffer's rest from `from` on, and answers where what was read ends.
fn read_from(mut source: Stdin, buffer: &mut [u8], from: usize) -> usize {
    if from >= buffer.len() {
        return from;
    }
    let rest = &mut buffer[from..];
    let n = match source.read(rest) {
        Ok(n) => n,
        Err(_) => 0,
    };
    from + n
}

// Reads more of the input after what was not taken yet; where that fills the buffer, the line is too long and is dropped.
fn refill(source: Stdin, buffer: &mut [u8], i: Input) -> Input {
    let with_pool = move_down(buffer, i.from, i.to);
    if with_pool >= buffer.len() {
        let end = read_from(source, buffer, 0);
        return Input {
            from: 0,
            to: end,
            long: true,
            ended: end == 0,
        };
    }
    let to = read_from(source, buffer, with_pool);
    Input {
        from: 0,
        to: to,
        long: i.long,
        ended: to == with_pool,
    }
}

// Goes past a line, or reads more of the input where there was none.
fn advance(source: Stdin, buffer: &mut [u8], i: Input, line: Line) -> Input {
    if line.found {
        return i.past(line.next);
    }
    refill(source, buffer, i)
}

// Answers line after line; the count of turns only shows that this ends.
fn serve(
    source: Stdin,
    to: Stdout,
    buffer: &mut [u8],
    pool: &mut [u8],
    watched: &mut [u8],
    out: &mut [u8],
) -> io::Result<()> {
    let mut i = Input::new();
    let mut s = Session::new();
    let mut turns = u64::MAX;
    while turns > 0 {
        let line = input::line_of(buffer, i);
        s = answer(to, s, line, i.long, buffer, pool, watched, out)?;
        if line.last {
            let k = s.kept;
            let c = k.console;
            send(to, out, c.at)?;
            return Ok(());
        }
        i = advance(source, buffer, i, line);
        turns -= 1;
    }
    Ok(())
}

// Lends each buffer once; the pool is that of a desk with all its slots.
fn main(rt: HostRuntime) -> io::Result<()> {
    let mut buffer = [0u8; INPUT];
    let mut pool = [0u8; limit::POOL];
    let mut watched = [0u8; console_watch::BUFFER];
    let mut out = [0u8; OUTPUT];
    serve(
        rt.stdin(),
        rt.stdout(),
        &mut buffer,
        &mut pool,
        &mut watched,
        &mut out,
    )
}
