// Text made visible: controls, octets that start no character, and characters that a terminal hides or obeys stand in digits.
#![tactic(auto)]

ghost use Rattle.std.specs.Prelude.{◌≡◌, ◌<◌, length, get_or, drop};
ghost use Rattle.octets.specs.Classes.{Classes};
ghost use Rattle.program_output.specs.Pages.{page, added};
ghost use Rattle.program_visible.specs.Visible.{hidden_control, hidden_space, hidden_mark, hidden_tag, hidden, character, in_hex, visible};

use octets::classes::ClassTable;

// An octet of a text; 0 past its end.
pub fn octet_at(s: &[u8], i: usize) -> usize
    ensures { result ≡ get_or s.now i 0 }
{
    s.get(i).map_or(0, |octet| usize::from(*octet))
}

// Whether C2 and this octet are a control from U+0080 to U+009F, or the soft hyphen.
#[tactic(auto, unfolding(crate::specs::Visible::hidden_control))]
fn is_hidden_control(b: usize) -> bool
    ensures { result ≡ hidden_control b }
{
    matches!(b, 0xad | 0x80..=0x9f)
}

// Whether E2 and these octets are a character without width, a separator of lines, or a mark of direction: U+200B to U+200F, U+2028 to U+202E, U+2060 to
// U+206F.
#[tactic(auto, unfolding(crate::specs::Visible::hidden_space))]
fn is_hidden_space(b: usize, c: usize) -> bool
    ensures { result ≡ hidden_space b c }
{
    matches!((b, c), (0x81, 0xa0..=0xaf) | (0x80, 0x8b..=0x8f | 0xa8..=0xae))
}

// Whether EF and these octets are the mark of byte order, U+FEFF, or an anchor of annotations, U+FFF9 to U+FFFB.
#[tactic(auto, unfolding(crate::specs::Visible::hidden_mark))]
fn is_hidden_mark(b: usize, c: usize) -> bool
    ensures { result ≡ hidden_mark b c }
{
    matches!((b, c), (0xbb, 0xbf) | (0xbf, 0xb9..=0xbb))
}

// Whether F3 and these octets start a tag, U+E0000 to U+E007F.
#[tactic(auto, unfolding(crate::specs::Visible::hidden_tag))]
fn is_hidden_tag(b: usize, c: usize) -> bool
    ensures { result ≡ hidden_tag b c }
{
    matches!((b, c), (0xa0, 0x80..=0x81))
}

// Whether a character that starts with these octets is hidden.
#[tactic(auto, unfolding(crate::specs::Visible::hidden))]
fn is_hidden(a: usize, b: usize, c: usize) -> bool
    ensures { result ≡ hidden a b c }
{
    match a {
        0xc2 => is_hidden_control(b),
        0xd8 => b == 0x9c,
        0xe2 => is_hidden_space(b, c),
        0xef => is_hidden_mark(b, c),
        0xf3 => is_hidden_tag(b, c),
        _ => false,
    }
}

// The length of the character at i that is shown as it is; 0 where none, a control or a hidden one starts there.
pub fn shown_length(t: &ClassTable, s: &[u8], i: usize) -> usize
    requires classes { Classes t.now }
    requires i_in_bounds { i < length s.now }
    ensures { result ≡ character (drop i s.now) }
{
    let first = octet_at(s, i);
    let second = octet_at(s, i + 1);
    let third = octet_at(s, i + 2);
    if is_hidden(first, second, third) {
        return 0;
    }
    utf8_screening::units::unit_length(t, s, i, false)
}

// Adds an octet as `\x` and two digits.
fn put_hex(room: &mut [u8], at: usize, octet: u8) -> usize
    ensures { page result room.new ≡ added (in_hex octet) (page at room.old) }
{
    let past = program_output::put_all(room, at, b"\\x");
    program_output::digits::put_pair(room, past, octet)
}

// Adds a text, with controls, hidden characters and octets that start no character in digits.
pub fn put_visible(room: &mut [u8], at: usize, text: &[u8]) -> usize
    ensures { page result room.new ≡ added (visible text.now) (page at room.old) }
{
    let t = octets::classes::table();
    let mut next = at;
    let mut i: usize = 0;
    while i < text.len() {
        let n = shown_length(&t, text, i);
        if n == 0 {
            next = put_hex(room, next, text[i]);
            i += 1;
        } else {
            let end = i + n;
            next = program_output::put_all(room, next, &text[i..end]);
            i = end;
        }
    }
    next
}
