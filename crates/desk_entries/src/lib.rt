// The entries of a desk: each is free or holds a session.
#![tactic(auto)]

ghost use Rattle.std.specs.Prelude.{◌≡◌};
ghost use Rattle.desk_entries.specs.Entries.{ticket_of, fits};
ghost use Rattle.desk_entries.specs.Ticks.{idle_ticket};

use numbers::limit;

pub mod tickets;
pub mod ticks;

// An open upload: its ticket, the tram's identifier and the octets held.
#[derive(Clone, Copy, Debug, PartialEq, Eq)]
pub struct Session {
    pub ticket: u32,
    pub tram: u32,
    pub held: u32,
}

// What an entry is: free, or open with a session. It stays an enum of its own, since the theorems of `desk_laws` and the reference name
// these two states.
#[derive(Clone, Copy, Debug, PartialEq, Eq)]
pub enum State {
    Free,
    Open(Session),
}

// An entry of a desk's table.
#[derive(Clone, Copy, Debug, PartialEq, Eq)]
pub struct Entry {
    pub state: State,
}

// Tells the ticket of an open entry, and 0 of a free one. It stays a number: 0 is no ticket of a sound desk, and one that is not sound may have it in an
// open entry, which `find_idle` passes over like a free one.
pub fn ticket_of(e: Entry) -> u32
    ensures { result ≡ ticket_of e.state }
{
    match e.state {
        State::Free => 0,
        State::Open(o) => o.ticket,
    }
}

// Tells the ticket of an open entry whose session is idle, and 0 of any other.
pub fn idle_ticket(e: Entry, tick: u32, now: u32) -> u32
    ensures { result ≡ idle_ticket e.state tick now }
{
    if ticks::is_idle(tick, now) {
        return ticket_of(e);
    }
    0
}

// Tells whether entry i is free, or a slot's with a session that fits.
pub fn fits(e: Entry, i: usize, slots: usize, next: u32) -> bool
    ensures { result ≡ fits slots next i e.state }
{
    match e.state {
        State::Free => true,
        State::Open(o) => { i < slots && 1 <= o.ticket && o.ticket < next && o.held <= limit::HELD }
    }
}
