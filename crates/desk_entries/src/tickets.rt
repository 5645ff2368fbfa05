// The tickets of a desk's entries side by side, 0 for a free one, and searches among them.
ghost use Rattle.std.specs.Prelude.{◌≡◌, ◌<◌, ◌≤◌};
ghost use Rattle.numbers.specs.Limits as limit;
ghost use Rattle.desk_entries.specs.Search.{place, first_at, column, same_as, among, AtMost, lower, longer};

use numbers::limit;

// The lowest ticket found so far, and where it stands.
#[derive(Clone, Copy, Debug, PartialEq, Eq)]
pub struct Lowest {
    pub ticket: u32,
    pub at: usize,
}

// Takes a ticket at a position, which 0 is none of, where it is lower than what was found.
pub fn lower(found: Option<Lowest>, ticket: u32, at: usize) -> Option<Lowest>
    ensures { result ≡ lower found ticket at }
{
    if ticket == 0 {
        return found;
    }
    match found {
        Some(lowest) if lowest.ticket <= ticket => found,
        _ => Some(Lowest { ticket, at }),
    }
}

// Finds the first of n positions that has a ticket, where a free one has 0.
pub fn find(tickets: &[u32; limit::SLOTS], t: u32, n: usize) -> Option<usize>
    requires { n ≤ limit.slots }
    ensures { place result ≡ first_at (same_as (column tickets.now) t) 0 n }
{
    tickets[..n].iter().position(|&ticket| ticket == t)
}

// Tells whether a ticket, which 0 is none of, stands at one of the first n positions.
#[tactic(auto, using(crate::proofs::Searches::is_some_place), unfolding(crate::specs::Search::among))]
pub fn stands(tickets: &[u32; limit::SLOTS], t: u32, n: usize) -> bool
    requires { n ≤ limit.slots }
    ensures { result ≡ among (column tickets.now) t n }
{
    t != 0 && find(tickets, t, n).is_some()
}

// Tells the same as `stands`, at once for 0 and for a ticket that is higher than all of them.
#[tactic(auto, using(crate::proofs::Searches::above_all), unfolding(crate::specs::Search::among))]
pub fn repeats(tickets: &[u32; limit::SLOTS], t: u32, n: usize, highest: u32) -> bool
    requires { (n ≤ limit.slots) × AtMost (column tickets.now) n highest }
    ensures { result ≡ among (column tickets.now) t n }
{
    if t == 0 {
        return false;
    }
    if highest < t {
        return false;
    }
    stands(tickets, t, n)
}

// Counts position i where all before it are counted.
pub fn longer(run: usize, i: usize) -> usize
    requires { i < limit.slots }
    ensures { result ≡ longer run i }
{
    if run == i {
        return i + 1;
    }
    run
}
