// PARTS of the requests of two edits: octets that come apart into parts, each after its length, and the rows and the plan among them.
#![tactic(auto)]

ghost use Rattle.std.specs.Prelude.{◌≡◌, ◌+◌, ◌*◌, ◌/◌, ◌<◌, ◌≤◌, length, get_or};
ghost use Rattle.octets.specs.Room.{overlay};
ghost use Rattle.console_parts.specs.Parts.{number_length, most_lent, most_octets, number_at, part_end, end_of, part_of, whole, holds_edits, source_at, sources_up_to, numbers_from};

use merge_sources::{Entries, LENT, Source};

// How many octets a number has.
pub const NUMBER: usize = 4;

// How many octets an entry of a row has: number, place and length.
pub const ENTRY: usize = 12;

// Where an entry has the place and the length of its URI.
const PLACE: usize = 4;

const LENGTH: usize = 8;

// The octet at a place; 0 past the end.
fn octet_at(s: &[u8], at: usize) -> u8
    ensures { result ≡ get_or s.now at 0 }
{
    s.get(at).copied().unwrap_or(0)
}

// The number of four octets at a place, the highest first.
fn number_at(s: &[u8], at: usize) -> u32
    requires { at ≤ most_octets }
    ensures { result ≡ number_at s.now at }
{
    u32::from_be_bytes([
        octet_at(s, at),
        octet_at(s, at + 1),
        octet_at(s, at + 2),
        octet_at(s, at + 3),
    ])
}

// Where the part at a place ends: after its length and so many octets; past all octets where it does not lie there.
fn part_end(s: &[u8], at: usize) -> usize
    requires { (length s.now ≤ most_octets) × (at ≤ length s.now + 1) }
    ensures { (result ≡ part_end s.now at) × (result ≤ length s.now + 1) }
{
    let from = at + NUMBER;
    if s.len() < from {
        return s.len() + 1;
    }
    let n = number_at(s, at) as usize;
    if s.len() - from < n {
        return s.len() + 1;
    }
    from + n
}

// Where the first k parts end.
fn end_of(s: &[u8], k: usize) -> usize
    requires { length s.now ≤ most_octets }
    ensures { (result ≡ end_of s.now k) × (result ≤ length s.now + 1) }
{
    let mut end: usize = 0;
    for _ in 0..k {
        end = part_end(s, end);
    }
    end
}

// Part k, counted from 0, without its length.
pub fn part_of(s: &[u8], k: usize) -> &[u8]
    requires { (length s.now ≤ most_octets) × (k < 5) }
    ensures result_value { result.now ≡ part_of s.now k }
    ensures result_in_bounds { length result.now ≤ length s.now }
{
    let from = end_of(s, k) + NUMBER;
    let to = end_of(s, k + 1);
    octets::slices::part(s, from, to)
}

// Whether octets are whole pieces of so many octets.
pub fn is_whole(s: &[u8], size: usize) -> bool
    requires { 0 < size }
    ensures { result ≡ whole s.now size }
{
    s.len() % size == 0
}

// Whether octets come apart into k parts, the third and the fourth of whole entries: two cards, their rows, and a plan where k is 5.
#[tactic(auto, unfolding(crate::specs::Parts::holds_edits))]
pub fn holds_edits(s: &[u8], k: usize) -> bool
    requires { length s.now ≤ most_octets }
    ensures { result ≡ holds_edits s.now k }
{
    end_of(s, k) == s.len() && is_whole(part_of(s, 2), ENTRY) && is_whole(part_of(s, 3), ENTRY)
}

// Entry i of a row; zeros past its end.
fn source_at(s: &[u8], i: usize) -> Source
    requires { i < most_lent }
    ensures { result ≡ source_at s.now i }
{
    let at = i * ENTRY;
    Source {
        number: number_at(s, at),
        place: number_at(s, at + PLACE),
        length: number_at(s, at + LENGTH),
    }
}

// The first entries of a row, as many as a program may lend, zeros past its end.
pub fn entries_of(s: &[u8]) -> Entries
    ensures { result ≡ sources_up_to s.now most_lent }
{
    let mut a = [Source {
        number: 0,
        place: 0,
        length: 0,
    }; LENT];
    for i in 0..LENT {
        a[i] = source_at(s, i);
    }
    a
}

// Puts the numbers of a plan to the front of out.
pub fn put_numbers(s: &[u8], out: &mut [u32])
    requires { (length s.now ≤ most_octets) × (length s.now / number_length ≤ length out.old) }
    ensures { out.new ≡ overlay (numbers_from s.now 0 (length s.now / number_length)) out.old }
{
    for i in 0..s.len() / NUMBER {
        out[i] = number_at(s, i * NUMBER);
    }
}
