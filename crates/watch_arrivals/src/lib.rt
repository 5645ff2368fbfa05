// The octets of a chunk as they arrive: how the input ends so far, a lone CR or LF, and where the next line starts.
#![tactic(auto)]

ghost use Rattle.std.specs.Prelude.{◌≡◌, ◌+◌, ◌-◌, ◌≤◌, ltb, length, take, drop};
ghost use Rattle.octets.specs.Pick.{pick};
ghost use Rattle.line_breaks.specs.Lone.{first_lone};
ghost use Rattle.watch_arrivals.specs.Arrivals.{tail_from, lone_from, blank, next_from};

// How the input ends so far: with another octet, with CR, or with CR LF.
pub const AFTER_OTHER: u32 = 0;

pub const AFTER_CR: u32 = 1;

pub const AFTER_CR_LF: u32 = 2;

// How the input ends after a chunk, by how it ended before.
pub fn tail_after(tail: u32, chunk: &[u8]) -> u32
    ensures { result ≡ tail_from tail chunk.now }
{
    let n = chunk.len();
    if n == 0 {
        return tail;
    }
    if chunk[n - 1] == b'\r' {
        return AFTER_CR;
    }
    if chunk[n - 1] != b'\n' {
        return AFTER_OTHER;
    }
    if n == 1 {
        if tail == AFTER_CR {
            return AFTER_CR_LF;
        }
        return AFTER_OTHER;
    }
    if chunk[n - 2] == b'\r' {
        return AFTER_CR_LF;
    }
    AFTER_OTHER
}

// The first lone CR or LF of the octets from `from` up to `to`, counted from 1 over the chunk; past the chunk's last octet where there is none.
fn lone_within(chunk: &[u8], from: usize, to: usize) -> usize
    requires { (from ≤ to) × (to ≤ length chunk.now) }
    ensures { result ≡ pick (ltb (first_lone (take (to - from) (drop from chunk.now))) (to - from)) (from + first_lone (take (to - from) (drop from chunk.now)) + 1) (length chunk.now + 1) }
{
    let lone = from + line_breaks::first_lone(&chunk[from..to]);
    if lone < to {
        return lone + 1;
    }
    chunk.len() + 1
}

// The first lone CR or LF from `from` on, counted from 1; a CR that is the last octet is not one yet. Past the last octet where there is none.
fn break_from(chunk: &[u8], from: usize) -> usize
    requires { from ≤ length chunk.now }
    ensures { result ≡ from + lone_from 0 (drop from chunk.now) }
{
    let n = chunk.len();
    if n == from {
        return n + 1;
    }
    let last = n - 1;
    if chunk[last] == b'\r' {
        return lone_within(chunk, from, last);
    }
    lone_within(chunk, from, n)
}

// The first lone CR or LF that a chunk makes known: 0 is the octet before the chunk, then its octets from 1 on; past the last where there is none.
pub fn first_break(tail: u32, chunk: &[u8]) -> usize
    ensures { result ≡ lone_from tail chunk.now }
{
    if tail != AFTER_CR {
        return break_from(chunk, 0);
    }
    if chunk.len() == 0 {
        return 1;
    }
    if chunk[0] != b'\n' {
        return 0;
    }
    break_from(chunk, 1)
}

// Whether an octet is a space or a tab.
fn is_blank(b: u8) -> bool
    ensures { result ≡ blank b }
{
    b == b' ' || b == b'\t'
}

// Where the line after the one that goes on at `from` starts, or the chunk's length.
fn line_after(chunk: &[u8], from: usize) -> usize
    requires from_in_bounds { from ≤ length chunk.now }
    requires chunk_value { lone_from 0 (drop from chunk.now) ≡ length (drop from chunk.now) + 1 }
    ensures { result ≡ from + next_from 0 (drop from chunk.now) }
{
    let end = line_folds::spans::line_end(chunk, from);
    if chunk.len() - end <= 2 {
        return chunk.len();
    }
    end + 2
}

// Where the first line starts in a chunk that has no lone CR or LF, or the chunk's length: the octets before it are of the line not yet ended.
pub fn next_line(tail: u32, chunk: &[u8]) -> usize
    requires { lone_from tail chunk.now ≡ length chunk.now + 1 }
    ensures { result ≡ next_from tail chunk.now }
{
    let n = chunk.len();
    if tail == AFTER_CR_LF {
        if n == 0 {
            return 0;
        }
        let blank = is_blank(chunk[0]);
        if !blank {
            return 0;
        }
        return line_after(chunk, 1);
    }
    if tail == AFTER_CR {
        if n < 2 {
            return n;
        }
        let blank = is_blank(chunk[1]);
        if !blank {
            return 1;
        }
        return line_after(chunk, 2);
    }
    line_after(chunk, 0)
}
