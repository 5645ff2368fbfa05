// How large a file is that is too long for a book: its octets and its cards, counted by reading it again where it can be.
#![tactic(auto)]

use cabbook_messages::sentences;
use cabbook_output::Unwritten;
use numbers::limit;
use octets::cases::same_name;
use octets::slices::part;
use program_host::{Host, STDOUT};
use program_output::put_all;

// The octets with which a card starts, behind the end of a line.
const START: usize = 12;

// What was counted so far: octets, cards, and how many octets of a card's start came last.
#[derive(Clone, Copy, Debug, PartialEq, Eq)]
struct Size {
    octets: usize,
    cards: usize,
    met: usize,
}

// The octet of a card's start that is looked for, a letter in capitals.
fn wanted(met: usize) -> u8 {
    let start = b"\nBEGIN:VCARD";
    if met < START {
        return start[met];
    }
    0
}

// What is counted with one octet more.
fn count_octet(s: Size, octet: u8) -> Size {
    let mut next = s;
    next.octets = s.octets.saturating_add(1);
    if octet.to_ascii_uppercase() != wanted(s.met) {
        next.met = usize::from(octet == b'\n');
        return next;
    }
    next.met = s.met.saturating_add(1);
    if next.met == START {
        next.met = 0;
        next.cards = s.cards.saturating_add(1);
    }
    next
}

// What is counted with some octets more.
fn count_octets(s: Size, chunk: &[u8]) -> Size {
    let mut now = s;
    for octet in chunk {
        now = count_octet(now, *octet);
    }
    now
}

// What is counted with the next octets of a file that is open, if there are any.
fn count_some(host: &mut Host, s: Size, fd: i32, path: &[u8]) -> Option<Size> {
    let mut room = program_host::large_buffer();
    let n = program_files::fetch(host, fd, path, &mut room)?;
    if n == 0 {
        return None;
    }
    Some(count_octets(s, part(&room, 0, n)))
}

// Counts the octets of a file that is open, up to its end.
fn count_file(host: &mut Host, fd: i32, path: &[u8]) -> Size {
    let mut now = Size {
        octets: 0,
        cards: 0,
        met: 1,
    };
    // Kept as a count of turns: a wrong program takes the count away, which a `for` has not.
    let mut left = u64::MAX;
    while left > 0 {
        let Some(next) = count_some(host, now, fd, path) else {
            return now;
        };
        now = next;
        left -= 1;
    }
    now
}

// Adds a number with a comma before its last three digits, and before the three before them.
fn put_grouped(room: &mut [u8], at: usize, n: usize) -> usize {
    if n < 1000 {
        return sentences::put_amount(room, at, n, b"");
    }
    if n < 1000000 {
        let start = sentences::put_amount(room, at, n / 1000, b",");
        return put_three(room, start, n % 1000);
    }
    let millions = sentences::put_amount(room, at, n / 1000000, b",");
    let thousands = put_three(room, millions, n / 1000 % 1000);
    let comma = put_all(room, thousands, b",");
    put_three(room, comma, n % 1000)
}

// Adds a number with three digits or more.
fn put_three(room: &mut [u8], at: usize, n: usize) -> usize {
    if n < 10 {
        let zeros = put_all(room, at, b"00");
        return sentences::put_amount(room, zeros, n, b"");
    }
    if n < 100 {
        let zeros = put_all(room, at, b"0");
        return sentences::put_amount(room, zeros, n, b"");
    }
    sentences::put_amount(room, at, n, b"")
}

// Adds what a file has that is too long for a book.
fn put_size(room: &mut [u8], path: &[u8], s: Size) -> usize {
    let name_end = program_visible::put_visible(room, 0, path);
    let start = put_all(room, name_end, b": ");
    let octets_end = put_grouped(room, start, s.octets);
    let cards_start = put_all(room, octets_end, b" octets in ");
    let cards_end = sentences::put_count(room, cards_start, s.cards, b" card");
    put_all(room, cards_end, b": a book has at most 16,384 octets\n")
}

// Prints how large the file of that name is, where it can be read from its start again.
pub fn print_size(host: &mut Host, path: &[u8]) -> Result<(), Unwritten> {
    if same_name(path, b"-") {
        return Ok(());
    }
    let Some(fd) = host.open_read(path) else {
        return Ok(());
    };
    if host.size(fd) <= limit::OCTETS as u64 {
        host.close(fd);
        return Ok(());
    }
    let s = count_file(host, fd, path);
    host.close(fd);
    let mut room = program_host::large_buffer();
    let n = put_size(&mut room, path, s);
    cabbook_output::send(host, STDOUT, &room, n)
}
