// The upload desk: 1 to 40 slots of 16,384 octets in a lent pool, and a session in each open one.
#![tactic(auto)]

ghost use Rattle.std.specs.Prelude.{◌≡◌, ◌<◌, IfErr};
ghost use Rattle.numbers.specs.Limits as limit;
ghost use Rattle.reader.specs.Outcome.{verdict};
ghost use Rattle.desk_pool.specs.Pools.{Lies};
ghost use Rattle.desk_slots.specs.Slots.{found, Within};
ghost use Rattle.desk.specs.Answer.{answer};
ghost use Rattle.desk.specs.Steps.{table, refuse, grant, stamped, slot_of, idle_slot, turned, new_step, Takes, begun, reclaim_in, open_step, add_step, release_step, held_step, judge_step, show_step};

use desk_entries::{Entry, Session, State, ticks};
use desk_slots::{Found, Table};
use numbers::limit;
use numbers::refusal::{Reason, Refusal};
use reader::Verdict;

// A desk: the entries of its slots, its slot count and its next ticket; the highest tick seen, and beside each entry the tick of its opening or last accepted add.
#[derive(Clone, Copy, Debug, PartialEq, Eq)]
pub struct Desk {
    pub entries: [Entry; limit::SLOTS],
    pub stamps: [u32; limit::SLOTS],
    pub slots: usize,
    pub next: u32,
    pub tick: u32,
}

// What a call answers, which is a ticket, a count of octets or 0, or a refusal; and the next desk.
#[derive(Clone, Copy, Debug, PartialEq, Eq)]
pub struct Turn {
    pub answer: Result<usize, Refusal>,
    pub desk: Desk,
}

impl Desk {
    // Makes a desk of that many free slots whose first ticket is 1, or refuses with 26.
    #[tactic(auto, unfolding(crate::specs::Steps::new_step))]
    pub fn new(slots: usize) -> Turn
        ensures { result ≡ new_step slots }
    {
        let es = [Entry { state: State::Free }; limit::SLOTS];
        let stamps = [0u32; limit::SLOTS];
        if !desk_slots::in_bounds(slots, 1) {
            return Turn {
                answer: Err(Refusal(Reason::SlotCount, 0)),
                desk: Desk {
                    entries: es,
                    slots: 0,
                    next: 1,
                    tick: 0,
                    stamps: stamps,
                },
            };
        }
        Turn {
            answer: Ok(0),
            desk: Desk {
                entries: es,
                slots: slots,
                next: 1,
                tick: 0,
                stamps: stamps,
            },
        }
    }

    // Answers a refusal and leaves the desk as it is.
    fn refuse(self, r: Refusal) -> Turn
        ensures { result ≡ refuse self r.0 r.1 }
    {
        Turn {
            answer: Err(r),
            desk: self,
        }
    }

    // Answers a number and sets entry i to a new state.
    fn grant(mut self, i: usize, state: State, answer: usize) -> Turn
        requires { i < limit.slots }
        ensures { result ≡ grant self i state answer }
    {
        self.entries[i] = Entry { state: state };
        Turn {
            answer: Ok(answer),
            desk: self,
        }
    }

    // Sets the tick of the desk and that of entry i.
    fn stamp(mut self, i: usize, tick: u32) -> Desk
        requires { i < limit.slots }
        ensures { result ≡ stamped self i tick }
    {
        self.tick = tick;
        self.stamps[i] = tick;
        self
    }

    // Tells what is known of its slots.
    fn table(self) -> Table
        ensures { result ≡ table self }
    {
        let entries = self.entries;
        let stamps = self.stamps;
        Table {
            entries,
            stamps,
            slots: self.slots,
            next: self.next,
            tick: self.tick,
        }
    }

    // Finds the slot of a ticket in a pool of that size, or refuses with 25, 24 or 22.
    fn at_ticket(self, size: usize, t: u32) -> Result<Found, Refusal>
        ensures slot { found result ≡ slot_of self size t }
        ensures within { Within size (found result) }
        ensures start { IfErr result (λ r. r.1 ≡ 0) }
    {
        self.table().at_ticket(size, t)
    }

    // Opens an upload for a tram in slot i and answers its ticket.
    fn begin(mut self, i: usize, tram: u32, tick: u32) -> Turn
        requires { (i < limit.slots) × (self.next < limit.tickets) }
        ensures { result ≡ begun self tram tick i }
    {
        let t = self.next;
        let s = State::Open(Session {
            ticket: t,
            tram: tram,
            held: 0,
        });
        self.next = t + 1;
        self.stamp(i, tick).grant(i, s, t as usize)
    }

    // Takes the idle slot with the lowest ticket for a tram: zeroes it and opens an upload there, or refuses with 20.
    fn reclaim(self, pool: &mut [u8], tram: u32, tick: u32) -> Turn
        requires { Takes self pool.old }
        ensures { turned result pool.new ≡ reclaim_in self pool.old tram tick (idle_slot self tick) }
    {
        let Some(slot) = self.table().find_idle(tick) else {
            return self.refuse(Refusal(Reason::NoFreeSlot, 0));
        };
        desk_pool::clear(pool, slot);
        self.begin(slot, tram, tick)
    }

    // Opens an upload for a tram in the lowest free slot, or in the idle one with the lowest ticket, and answers its ticket; or refuses with 25, 24, 21 or 20.
    pub fn open(self, pool: &mut [u8], tram: u32, tick: u32) -> Turn
        ensures { turned result pool.new ≡ open_step self pool.old tram tick }
    {
        match self.table().find_slot(pool.len()) {
            Err(r) => self.refuse(r),
            Ok(free) => {
                if self.next == limit::TICKETS {
                    return self.refuse(Refusal(Reason::TicketsUsedUp, 0));
                }
                let now = ticks::higher(self.tick, tick);
                match free {
                    Some(i) => self.begin(i, tram, now),
                    None => self.reclaim(pool, tram, now),
                }
            }
        }
    }

    // Adds a chunk to an upload and answers the octets held then, or refuses with 25, 24, 22 or 23.
    #[tactic(auto, unfolding(crate::specs::Steps::add_step))]
    pub fn add(self, pool: &mut [u8], t: u32, chunk: &[u8], tick: u32) -> Turn
        ensures { turned result pool.new ≡ add_step self pool.old t chunk.now tick }
    {
        match self.at_ticket(pool.len(), t) {
            Err(r) => self.refuse(r),
            Ok(at) => {
                let i = at.slot;
                let o = at.session;
                let h = o.held as usize;
                if chunk.len() > limit::OCTETS - h {
                    return self.refuse(Refusal(Reason::SlotFull, h));
                }
                desk_pool::put(pool, i, h, chunk);
                let m = h + chunk.len();
                let s = State::Open(Session {
                    ticket: o.ticket,
                    tram: o.tram,
                    held: m as u32,
                });
                let seen = ticks::higher(self.tick, tick);
                self.stamp(i, seen).grant(i, s, m)
            }
        }
    }

    // Ends an upload, zeroes its slot and answers 0, or refuses with 25, 24 or 22.
    #[tactic(auto, unfolding(crate::specs::Steps::release_step))]
    pub fn release(self, pool: &mut [u8], t: u32) -> Turn
        ensures { turned result pool.new ≡ release_step self pool.old t }
    {
        match self.at_ticket(pool.len(), t) {
            Err(r) => self.refuse(r),
            Ok(at) => {
                desk_pool::clear(pool, at.slot);
                self.grant(at.slot, State::Free, 0)
            }
        }
    }

    // Hands out the part of the pool itself that holds an upload's octets, an empty one where `held` refuses.
    #[tactic(auto, unfolding(crate::specs::Steps::show_step))]
    pub fn show(self, pool: &[u8], t: u32) -> &[u8]
        ensures { Lies pool.entry result (show_step self pool.now t) }
    {
        let Ok(at) = self.at_ticket(pool.len(), t) else {
            return &pool[0..0];
        };
        desk_pool::part(pool, at.slot, at.session.held as usize)
    }

    // Answers how many octets an upload holds, or refuses with 25, 24 or 22.
    #[tactic(auto, unfolding(crate::specs::Steps::held_step))]
    pub fn held(self, pool: &[u8], t: u32) -> Result<usize, Refusal>
        ensures { answer result ≡ held_step self pool.now t }
    {
        let upload = self.at_ticket(pool.len(), t)?;
        Ok(upload.session.held as usize)
    }

    // Answers what the reader answers for an upload's octets, or refuses with 25, 24 or 22.
    #[tactic(auto, unfolding(crate::specs::Steps::judge_step))]
    pub fn judge(self, pool: &[u8], t: u32) -> Verdict
        ensures { verdict result ≡ judge_step self pool.now t }
    {
        let at = self.at_ticket(pool.len(), t)?;
        reader::judge(desk_pool::part(pool, at.slot, at.session.held as usize))
    }
}
