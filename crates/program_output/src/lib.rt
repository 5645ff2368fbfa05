// Text made in a lent page: each piece goes after what is written, as far as there is room.
#![tactic(auto)]

pub mod digits;

ghost use Rattle.std.specs.Prelude.{◌≡◌, ◌∷◌, [], replicate};
ghost use Rattle.octets.specs.Pick.{pick};
ghost use Rattle.program_output.specs.Pages.{page, added};

// Adds an octet, and answers how many octets are written then.
pub fn put(room: &mut [u8], at: usize, octet: u8) -> usize
    ensures { page result room.new ≡ added (octet ∷ []) (page at room.old) }
{
    if at < room.len() {
        room[at] = octet;
        return at + 1;
    }
    at
}

// Adds a text.
pub fn put_all(room: &mut [u8], at: usize, text: &[u8]) -> usize
    ensures { page result room.new ≡ added text.now (page at room.old) }
{
    let mut next = at;
    for octet in text {
        next = put(room, next, *octet);
    }
    next
}

// Adds a text, or nothing where that is told.
pub fn put_unless(room: &mut [u8], at: usize, nothing: bool, text: &[u8]) -> usize
    ensures { page result room.new ≡ added (pick nothing [] text.now) (page at room.old) }
{
    if nothing {
        return at;
    }
    put_all(room, at, text)
}

// Adds n spaces.
pub fn put_spaces(room: &mut [u8], at: usize, n: usize) -> usize
    ensures { page result room.new ≡ added (replicate n 32) (page at room.old) }
{
    let mut next = at;
    for _ in 0..n {
        next = put(room, next, b' ');
    }
    next
}
