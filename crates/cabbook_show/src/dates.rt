// The dates of `show`: a date with year, month and day as people write it, beside the octets as they stand.
ghost use Rattle.std.specs.Prelude.{◌≤◌};

// Whether a digit stands at i.
fn is_digit_at(s: &[u8], i: usize) -> bool {
    match s.get(i) {
        Some(x) => x.is_ascii_digit(),
        None => false,
    }
}

// Adds a mark and the two digits that stand at i, or nothing where none do.
fn put_pair(room: &mut [u8], at: usize, mark: u8, s: &[u8], i: usize) -> usize
    requires { i ≤ 18 }
{
    if !is_digit_at(s, i) {
        return at;
    }
    let end = program_output::put(room, at, mark);
    program_output::put_all(room, end, octets::slices::part(s, i, i + 2))
}

// Adds the day: 1985-04-12.
fn put_day(room: &mut [u8], at: usize, s: &[u8]) -> usize {
    let year = program_output::put_all(room, at, octets::slices::part(s, 0, 4));
    let month = put_pair(room, year, b'-', s, 4);
    put_pair(room, month, b'-', s, 6)
}

// Where the digits of the clock time end.
fn clock_end(s: &[u8]) -> usize
    ensures { result ≤ 15 }
{
    if is_digit_at(s, 13) {
        return 15;
    }
    if is_digit_at(s, 11) {
        return 13;
    }
    11
}

// Adds the zone that stands at i: UTC for Z, else the offset, as -05:00.
fn put_zone(room: &mut [u8], at: usize, s: &[u8], i: usize) -> usize
    requires { i ≤ 15 }
{
    if s.len() <= i {
        return at;
    }
    let sign = s[i];
    if sign == b'Z' {
        return program_output::put_all(room, at, b" UTC");
    }
    let start = program_output::put(room, at, b' ');
    let hour = put_pair(room, start, sign, s, i + 1);
    put_pair(room, hour, b':', s, i + 3)
}

// Adds the clock time after the day, and its zone: 14:00:00 UTC.
fn put_clock(room: &mut [u8], at: usize, s: &[u8]) -> usize {
    let hour = put_pair(room, at, b' ', s, 9);
    let minute = put_pair(room, hour, b':', s, 11);
    let second = put_pair(room, minute, b':', s, 13);
    put_zone(room, second, s, clock_end(s))
}

// Adds a date as it stands, and in brackets as people write it where it has year, month and day.
pub(crate) fn put_date(room: &mut [u8], at: usize, s: &[u8]) -> usize {
    let end = program_visible::put_visible(room, at, s);
    if !is_digit_at(s, 0) {
        return end;
    }
    if !is_digit_at(s, 7) {
        return end;
    }
    let start = program_output::put_all(room, end, b" (");
    let day = put_day(room, start, s);
    let clock = put_clock(room, day, s);
    program_output::put(room, clock, b')')
}
