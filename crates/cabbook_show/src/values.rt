// The values of `show`: text without its escapes, the components of lists, dates, or the value as it stands; and the label of an address.
ghost use Rattle.std.specs.Prelude.{length, ◌≤◌};

use crate::dates;
use cabbook_tables::fields;
use label_carets::Rule;
use numbers::refusal::Refusal;
use numbers::{kind, limit};
use program_visible::put_visible;

// Where the value's column starts: past three columns, each with a space after it.
const INDENT: usize = fields::PROPERTY_WIDTH + fields::GROUP_WIDTH + fields::PARAMETERS_WIDTH + 3;

// Goes to the next line, to the value's column, but not behind the last line.
fn put_indent(room: &mut [u8], at: usize, last: bool) -> usize {
    if last {
        return at;
    }
    let start = program_output::put_all(room, at, b"\n");
    program_output::put_spaces(room, start, INDENT)
}

// Whether an octet is a space or a tab.
fn is_blank(octet: u8) -> bool {
    matches!(octet, b' ' | b'\t')
}

// Where the blanks at the end of a line start.
fn blank_start(s: &[u8]) -> usize {
    for end in (0..s.len()).rev() {
        if !is_blank(s[end]) {
            return end + 1;
        }
    }
    0
}

// Adds a blank in digits.
fn put_blank(room: &mut [u8], at: usize, blank: u8) -> usize {
    if blank == b' ' {
        return program_output::put_all(room, at, b"\\x20");
    }
    program_output::put_all(room, at, b"\\x09")
}

// Adds blanks in digits, since they could not be seen.
fn put_blanks(room: &mut [u8], at: usize, blanks: &[u8]) -> usize {
    let mut next = at;
    for blank in blanks {
        next = put_blank(room, next, *blank);
    }
    next
}

// Adds a line, with the blanks at its end in digits.
fn put_line(room: &mut [u8], at: usize, s: &[u8]) -> usize {
    let start = blank_start(s);
    let end = put_visible(room, at, octets::slices::part(s, 0, start));
    put_blanks(room, end, octets::slices::part(s, start, s.len()))
}

// Where the line ends that starts at a place: at the next LF, or at the text's end.
fn line_end(s: &[u8], from: usize) -> usize
    requires { from ≤ length s.now }
    ensures { (from ≤ result) × (result ≤ length s.now) }
{
    for i in from..s.len() {
        if s[i] == b'\n' {
            return i;
        }
    }
    s.len()
}

// Adds text, each of its lines in the value's column.
fn put_paragraphs(room: &mut [u8], at: usize, s: &[u8]) -> usize {
    let mut next = at;
    let mut from: usize = 0;
    while from < s.len() {
        let end = line_end(s, from);
        next = put_line(room, next, &s[from..end]);
        next = put_indent(room, next, end == s.len());
        from = end + 1;
    }
    next
}

// Adds what was written to the start of a text, or where it was refused a text as it stands.
fn put_meaning(
    room: &mut [u8],
    at: usize,
    w: Result<usize, Refusal>,
    meant: &[u8],
    s: &[u8],
) -> usize {
    match w {
        Ok(n) => put_paragraphs(room, at, octets::slices::part(meant, 0, n)),
        Err(_) => put_line(room, at, s),
    }
}

// Adds the text that escapes stand for.
fn put_text(room: &mut [u8], at: usize, s: &[u8]) -> usize {
    let mut meant = [0u8; limit::OCTETS];
    let w = text::unescape(s, &mut meant);
    put_meaning(room, at, w, &meant, s)
}

// Where the component ends that starts at a place.
fn component_end(s: &[u8], from: usize, semicolons: bool) -> usize
    requires { from ≤ length s.now }
    ensures { (from ≤ result) × (result ≤ length s.now) }
{
    let n = cabbook_positions::component(octets::slices::part(s, from, s.len()), semicolons);
    from + n.min(s.len() - from)
}

// Adds what stands at the end of a component: a comma, or a bar for a semicolon; nothing behind the last.
fn put_separator(room: &mut [u8], at: usize, s: &[u8], end: usize) -> usize {
    if end >= s.len() {
        return at;
    }
    if s[end] == b',' {
        return program_output::put_all(room, at, b", ");
    }
    program_output::put_all(room, at, b" | ")
}

// Adds the components of a value, each as the text that it stands for.
fn put_components(room: &mut [u8], at: usize, s: &[u8], semicolons: bool) -> usize {
    let mut next = at;
    let mut from: usize = 0;
    while from < s.len() {
        let end = component_end(s, from, semicolons);
        next = put_text(room, next, &s[from..end]);
        next = put_separator(room, next, s, end);
        from = end + 1;
    }
    next
}

// Adds a value by its kind: text, lists of texts, dates, or as it stands.
pub(crate) fn put_value(room: &mut [u8], at: usize, s: &[u8], number: u32) -> usize {
    let kind = number as usize;
    match kind {
        kind::TEXT => put_text(room, at, s),
        kind::TEXTS => put_components(room, at, s, false),
        kind::NAME | kind::ADDRESS | kind::ORGANIZATION => put_components(room, at, s, true),
        kind::DATE | kind::TIMESTAMP => dates::put_date(room, at, s),
        _ => put_line(room, at, s),
    }
}

// Adds the value that a label stands for.
fn put_decoded(room: &mut [u8], at: usize, s: &[u8]) -> usize {
    let mut meant = [0u8; limit::OCTETS];
    let w = label::decode(Rule::Rfc6868, s, &mut meant);
    put_meaning(room, at, w, &meant, s)
}

// Adds the LABEL of a line whose name ends there, if it has one, each of its lines in the value's column.
pub(crate) fn put_label(room: &mut [u8], at: usize, line: &[u8], name_end: usize) -> usize {
    let t = octets::classes::table();
    let Some(span) = line_parameters::param_first(&t, line, name_end, b"LABEL") else {
        return at;
    };
    let indent = put_indent(room, at, false);
    put_decoded(
        room,
        indent,
        octets::slices::part(line, span.start, span.end),
    )
}
