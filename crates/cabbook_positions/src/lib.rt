// Positions in a text as people count them: lines, characters, where each starts, where a part ends, how many there are, open escapes.
#![tactic(auto)]

ghost use Rattle.std.specs.Prelude.{◌≡◌, false, ◌+◌, ◌-◌, ◌≤◌, ◌<◌, min, ltb, length, drop};
ghost use Rattle.octets.specs.Pick.{pick};
ghost use Rattle.cabbook_positions.specs.Positions.{count, is_lf, is_first, back_to, opens, begins, starts};
ghost use Rattle.cabbook_positions.specs.Components.{bare_step, bare_length, opened, open_after, split_at, splits};

// The place before a place, or 0.
pub fn before(place: usize) -> usize
    ensures { result ≡ place - 1 }
{
    place.saturating_sub(1)
}

// The number of the line that is reached after these octets, as an editor counts: 1, and 1 more for each LF.
pub fn line_number(before: &[u8]) -> usize
    ensures { result ≡ 1 + count is_lf before.now }
{
    1 + before.iter().filter(|x| **x == b'\n').count()
}

// How many characters a text has, each by its first octet.
pub fn characters(s: &[u8]) -> usize
    ensures { result ≡ count is_first s.now }
{
    s.iter().filter(|x| !utf8::is_tail(**x)).count()
}

// Whether a logical line starts at i, which is not the first place.
fn line_opens(s: &[u8], i: usize) -> bool
    requires { (1 ≤ i) × (i ≤ length s.now) }
    ensures { result ≡ opens s.now i }
{
    if s[i - 1] != b'\n' {
        return false;
    }
    if i < 2 {
        return false;
    }
    if s[i - 2] != b'\r' {
        return false;
    }
    if i == s.len() {
        return true;
    }
    if s[i] == b' ' {
        return false;
    }
    s[i] != b'\t'
}

// The start of the logical line in which a place lies; of the last line where the place is past the end.
pub fn line_start(s: &[u8], place: usize) -> usize
    ensures { (result ≡ back_to (opens s.now) (min place (length s.now))) × (result ≤ length s.now) }
{
    let end = place.min(s.len());
    for i in (1..=end).rev() {
        if line_opens(s, i) {
            return i;
        }
    }
    0
}

// The start of the physical line in which a place lies; of the last one where the place is past the end.
pub fn row_start(s: &[u8], place: usize) -> usize
    ensures { result ≡ back_to (begins s.now) (min place (length s.now)) }
{
    let end = place.min(s.len());
    for i in (0..end).rev() {
        if s[i] == b'\n' {
            return i + 1;
        }
    }
    0
}

// The start of the character in which a place lies; the length where the place is past the end.
pub fn character_start(s: &[u8], place: usize) -> usize
    ensures { (result ≡ pick (ltb place (length s.now)) (back_to (starts s.now) place) (length s.now)) × (result ≤ length s.now) }
{
    if place >= s.len() {
        return s.len();
    }
    for i in (1..=place).rev() {
        if !utf8::is_tail(s[i]) {
            return i;
        }
    }
    0
}

// How far to go at a place on the way to a bare comma, or semicolon where these split too: 0 at one, 2 at a backslash with an octet after it, else 1.
fn bare_step(s: &[u8], i: usize, semicolons: bool) -> usize
    requires { i < length s.now }
    ensures { (result ≡ bare_step semicolons (drop i s.now)) × (i + result ≤ length s.now) }
{
    if s[i] == b',' {
        return 0;
    }
    if s[i] == b';' {
        if semicolons {
            return 0;
        }
        return 1;
    }
    if s[i] == b'\\' {
        if s.len() - i < 2 {
            return 1;
        }
        return 2;
    }
    1
}

// How long the component is with which a text starts: up to the first bare comma, or semicolon where these split too.
pub fn component(s: &[u8], semicolons: bool) -> usize
    ensures { (result ≡ bare_length semicolons s.now) × (result ≤ length s.now) }
{
    let mut i: usize = 0;
    while i < s.len() {
        let n = bare_step(s, i, semicolons);
        if n == 0 {
            return i;
        }
        i += n;
    }
    i
}

// Whether a backslash waits for its octet after an octet, where one did before it or not.
fn opens_escape(waits: bool, octet: u8) -> bool
    ensures { result ≡ opened waits octet }
{
    if waits {
        return false;
    }
    octet == b'\\'
}

// Whether a text ends with a backslash that waits for its octet.
pub fn ends_in_escape(s: &[u8]) -> bool
    ensures { result ≡ open_after false s.now }
{
    let mut waits = false;
    for octet in s {
        waits = opens_escape(waits, *octet);
    }
    waits
}

// How many parts an octet adds to a value: one where it is a semicolon, and no backslash waits for it.
fn part_at(waits: bool, octet: u8) -> usize
    ensures { (result ≡ split_at waits octet) × (result ≤ 1) }
{
    if waits {
        return 0;
    }
    if octet == b';' {
        return 1;
    }
    0
}

// How many parts a value has, split by semicolons without a backslash before them.
pub fn parts(s: &[u8]) -> usize
    ensures { result ≡ 1 + splits false s.now }
{
    let mut n: usize = 1;
    let mut waits = false;
    for octet in s {
        n += part_at(waits, *octet);
        waits = opens_escape(waits, *octet);
    }
    n
}
