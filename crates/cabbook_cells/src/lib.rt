// Cells: how wide a terminal shows a text, blanks of that width, and what a column has to spare beside it.
#![tactic(auto)]

mod ranges;
mod unicode;

ghost use Rattle.std.specs.Prelude.{◌≡◌, ◌+◌, ◌-◌, ◌*◌, ◌%◌, ◌<◌, eqb, length, drop};
ghost use Rattle.octets.specs.Pick.{pick};
ghost use Rattle.program_output.specs.Pages.{page, added};
ghost use Rattle.program_visible.specs.Visible.{character};
ghost use Rattle.cabbook_cells.specs.Cells.{code_of, blank, blanks};

use program_visible::octet_at;

// The cells of an octet that is shown in digits, as `\x07`.
const IN_DIGITS: usize = 4;

// The values that the six bits of a character's later octets have.
const LATER: usize = 64;

// A code point so far, with the six bits of the next octet.
fn join(code: usize, octet: usize) -> usize
    requires { code < 65536 }
    ensures { (result ≡ code * 64 + octet % 64) × (result < code * 64 + 64) }
{
    code * LATER + octet % LATER
}

// The code point of the character of n octets at i.
fn code_at(s: &[u8], i: usize, n: usize) -> usize
    requires { i < length s.now }
    ensures { result ≡ code_of n (drop i s.now) }
{
    let first = octet_at(s, i);
    if n < 2 {
        return first;
    }
    let second = octet_at(s, i + 1);
    if n == 2 {
        return join(first % 32, second);
    }
    let third = octet_at(s, i + 2);
    if n == 3 {
        return join(join(first % 16, second), third);
    }
    join(join(join(first % 8, second), third), octet_at(s, i + 3))
}

// Adds a blank as wide as what is shown of the character of n octets at i; a tab stands for itself, and with n 0 an octet in digits stands there.
fn put_blank(room: &mut [u8], at: usize, text: &[u8], i: usize, n: usize) -> usize
    requires { (i < length text.now) × (n ≡ character (drop i text.now)) }
    ensures { page result room.new ≡ added (blank (drop i text.now)) (page at room.old) }
{
    if n == 0 {
        return program_output::put_spaces(room, at, IN_DIGITS);
    }
    if text[i] == b'\t' {
        return program_output::put(room, at, b'\t');
    }
    let t = ranges::table();
    let cells = ranges::cells_in(&t, code_at(text, i, n));
    program_output::put_spaces(room, at, cells)
}

// How far a character of n octets goes, or an octet that is none.
fn step_of(n: usize) -> usize
    ensures { result ≡ pick (eqb n 0) 1 n }
{
    n.max(1)
}

// Adds blanks as wide as what is shown of a text.
pub fn put_blanks(room: &mut [u8], at: usize, text: &[u8]) -> usize
    ensures { page result room.new ≡ added (blanks text.now) (page at room.old) }
{
    let t = octets::classes::table();
    let mut next = at;
    let mut i: usize = 0;
    while i < text.len() {
        let n = program_visible::shown_length(&t, text, i);
        next = put_blank(room, next, text, i, n);
        i += step_of(n);
    }
    next
}

// The cells of what is shown of the character of n octets at i; a tab counts as one, and with n 0 an octet in digits stands there.
fn cells_at(text: &[u8], i: usize, n: usize) -> usize
    requires { (i < length text.now) × (n ≡ character (drop i text.now)) }
    ensures { result ≡ length (blank (drop i text.now)) }
{
    if n == 0 {
        return IN_DIGITS;
    }
    if text[i] == b'\t' {
        return 1;
    }
    let t = ranges::table();
    ranges::cells_in(&t, code_at(text, i, n))
}

// How many cells a column of so many has to spare beside a text.
pub fn spare(text: &[u8], width: usize) -> usize
    ensures { result ≡ width - length (blanks text.now) }
{
    let t = octets::classes::table();
    let mut left = width;
    let mut i: usize = 0;
    while i < text.len() {
        let n = program_visible::shown_length(&t, text, i);
        left = left.saturating_sub(cells_at(text, i, n));
        i += step_of(n);
    }
    left
}
