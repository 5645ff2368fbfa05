// One search along the entries of a desk: whether the desk is sound, and the slot of a ticket, the lowest free one or the idle one to take.
#![tactic(auto)]

ghost use Rattle.std.specs.Prelude.{◌≡◌, ◌≤◌, IfErr};
ghost use Rattle.numbers.specs.Limits as limit;
ghost use Rattle.desk_entries.specs.Search.{place};
ghost use Rattle.desk_slots.specs.Sound.{bounds};
ghost use Rattle.desk_entries.specs.declared.State.TheVariants.{Open};
ghost use Rattle.desk_slots.specs.Slots.{position, position_of, idle_of, found, slot_of, met, look_of, seen_of, Within};

use desk_entries::tickets::Lowest;
use desk_entries::{Entry, Session, State, tickets, ticks};
use numbers::limit;
use numbers::refusal::{Reason, Refusal};

// What is known of a desk's slots: their entries with the tick of each, their count, the next ticket and the desk's tick.
#[derive(Clone, Copy, Debug, PartialEq, Eq)]
pub struct Table {
    pub entries: [Entry; limit::SLOTS],
    pub stamps: [u32; limit::SLOTS],
    pub slots: usize,
    pub next: u32,
    pub tick: u32,
}

// The slot of a ticket, and its session.
#[derive(Clone, Copy, Debug, PartialEq, Eq)]
pub struct Found {
    pub slot: usize,
    pub session: Session,
}

// What a look along the entries of a sound desk tells: the slot of a ticket, and how many open entries come first.
#[derive(Clone, Copy, Debug, PartialEq, Eq)]
pub struct Look {
    pub found: Option<Found>,
    pub run: usize,
}

// Tells whether the slot count is in range and the next ticket at least 1.
#[tactic(auto, unfolding(crate::specs::Sound::bounds))]
pub fn in_bounds(slots: usize, next: u32) -> bool
    ensures { result ≡ bounds slots next }
{
    1 <= slots && slots <= limit::SLOTS && 1 <= next
}

// Takes the session of entry i where it has the ticket, and else what was found before.
fn met(found: Option<Found>, i: usize, session: Session, t: u32) -> Option<Found>
    ensures { result ≡ met found i t (Open session) }
{
    if session.ticket == t {
        return Some(Found { slot: i, session });
    }
    found
}

impl Table {
    // Looks along the entries once, and tells what it sees of a sound desk.
    fn look_along(&self, t: u32) -> Option<Look>
        ensures { result ≡ look_of self.now.entries self.now.slots self.now.next self.now.stamps self.now.tick t }
    {
        if !in_bounds(self.slots, self.next) {
            return None;
        }
        let mut ts = [0u32; limit::SLOTS];
        let mut highest: u32 = 0;
        let mut found = None;
        let mut run: usize = 0;
        for i in 0..limit::SLOTS {
            let State::Open(session) = self.entries[i].state else {
                continue;
            };
            if !desk_entries::fits(self.entries[i], i, self.slots, self.next) {
                return None;
            }
            if self.tick < self.stamps[i] {
                return None;
            }
            if tickets::repeats(&ts, session.ticket, i, highest) {
                return None;
            }
            ts[i] = session.ticket;
            highest = ticks::higher(highest, session.ticket);
            found = met(found, i, session, t);
            run = tickets::longer(run, i);
        }
        Some(Look { found, run })
    }

    // Looks along the entries of a sound desk whose pool has its size, or refuses with 25 or 24.
    fn checked_look(&self, size: usize, t: u32) -> Result<Look, Refusal>
        ensures { result ≡ seen_of self.now.entries self.now.slots self.now.next self.now.stamps self.now.tick size t }
    {
        let Some(seen) = self.look_along(t) else {
            return Err(Refusal(Reason::Unsound, 0));
        };
        if size != self.slots * limit::OCTETS {
            return Err(Refusal(Reason::PoolLength, 0));
        }
        Ok(seen)
    }

    // Finds the lowest free slot, or refuses with 25 or 24.
    pub fn find_slot(&self, size: usize) -> Result<Option<usize>, Refusal>
        ensures value { position result ≡ position_of self.now.entries self.now.slots self.now.next self.now.stamps self.now.tick size 0 }
        ensures start { IfErr result (λ r. r.1 ≡ 0) }
    {
        let seen = self.checked_look(size, 0)?;
        if seen.run < self.slots {
            return Ok(Some(seen.run));
        }
        Ok(None)
    }

    // Finds the idle slot with the lowest ticket, when the desk's tick is `now`.
    pub fn find_idle(&self, now: u32) -> Option<usize>
        requires { self.now.slots ≤ limit.slots }
        ensures { place result ≡ idle_of self.now.entries self.now.slots self.now.stamps now }
    {
        let mut lowest: Option<Lowest> = None;
        for i in 0..self.slots {
            let ticket = desk_entries::idle_ticket(self.entries[i], self.stamps[i], now);
            lowest = tickets::lower(lowest, ticket, i);
        }
        lowest.map(|found| found.at)
    }

    // Finds the slot of a ticket, or refuses with 25, 24 or 22.
    pub fn at_ticket(&self, size: usize, t: u32) -> Result<Found, Refusal>
        ensures slot { found result ≡ slot_of self.now.entries self.now.slots self.now.next self.now.stamps self.now.tick size t }
        ensures within { Within size (found result) }
        ensures start { IfErr result (λ r. r.1 ≡ 0) }
    {
        let seen = self.checked_look(size, t)?;
        seen.found.ok_or(Refusal(Reason::NotOpen, 0))
    }
}
