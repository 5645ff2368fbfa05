// Where a logical line is cut, and how long it is when it is folded.
ghost use Rattle.std.specs.Prelude.{◌≡◌, ◌+◌, ◌*◌, ◌<◌, ◌≤◌, length, drop};
ghost use Rattle.numbers.specs.Limits as limit;
ghost use Rattle.folder_line.specs.Pieces.{first, folded, Clean};

use numbers::limit;

// The end of the piece that starts at `from`, where `room` octets are left in the physical line and more than those follow.
pub fn cut(s: &[u8], from: usize, room: usize) -> usize
    requires { Clean (drop from s.now) × (from + room < length s.now) }
    ensures { result ≡ from + length (first (drop from s.now) room) }
{
    let mut e = from + room;
    while utf8::is_tail(s[e]) {
        e -= 1;
    }
    e
}

// How many octets the line has when it is folded.
pub fn measure(s: &[u8]) -> usize
    requires { Clean s.now × (length s.now ≤ limit.octets) }
    ensures { (result ≡ length (folded s.now)) × (result ≤ 4 * length s.now + 2) }
{
    let mut a: usize = 0;
    let mut n: usize = 0;
    let mut room: usize = limit::FIRST_LINE;
    while room < s.len() - a {
        a = cut(s, a, room);
        n += 3;
        room = limit::LATER_LINE;
    }
    s.len() + n + 2
}
