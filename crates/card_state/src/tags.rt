// Where the ALTID values of a card's first lines are kept in a store of octets: a place for each property that a card has at most once.
ghost use Rattle.std.specs.Prelude.{◌≡◌, map, ◌+◌, ◌-◌, ◌<◌, ◌≤◌, length, get_or, set};
ghost use Rattle.std.proofs.Math.Option.{some};
ghost use Rattle.numbers.specs.Limits as limit;
ghost use Rattle.card_state.specs.State.{singles, same_tag, tag_of};
ghost use Rattle.card_state.specs.Kept.{places_of, tag_at, Inside, no_tags, Keeps};

use crate::Card;

// The place of each property's value, 0 for none.
#[derive(Clone, Copy, Debug, PartialEq, Eq)]
pub struct Tags {
    pub kind: u32,
    pub n: u32,
    pub bday: u32,
    pub anniversary: u32,
    pub gender: u32,
    pub prodid: u32,
    pub rev: u32,
    pub uid: u32,
    pub created: u32,
    pub language: u32,
}

// More than the octets of any input: a place is one more than the value's start times SPAN and its length.
const SPAN: usize = 32768;

// No value is kept.
pub fn none() -> Tags
    ensures { result ≡ no_tags }
{
    Tags {
        kind: 0,
        n: 0,
        bday: 0,
        anniversary: 0,
        gender: 0,
        prodid: 0,
        rev: 0,
        uid: 0,
        created: 0,
        language: 0,
    }
}

// The place of the k-th property, counted from 1.
#[tactic(auto, unfolding(crate::specs::Kept::places_of))]
fn place_at(t: Tags, k: usize) -> u32
    requires { (0 < k) × (k ≤ singles) }
    ensures { result ≡ get_or (places_of t) (k - 1) 0 }
{
    match k {
        1 => t.kind,
        2 => t.n,
        3 => t.bday,
        4 => t.anniversary,
        5 => t.gender,
        6 => t.prodid,
        7 => t.rev,
        8 => t.uid,
        9 => t.created,
        _ => t.language,
    }
}

// The places with another one for the k-th property, counted from 1.
#[tactic(auto, unfolding(crate::specs::Kept::places_of))]
fn with_place(t: Tags, k: usize, place: u32) -> Tags
    requires { (0 < k) × (k ≤ singles) }
    ensures { places_of result ≡ set (places_of t) (k - 1) place }
{
    match k {
        1 => Tags { kind: place, ..t },
        2 => Tags { n: place, ..t },
        3 => Tags { bday: place, ..t },
        4 => Tags {
            anniversary: place,
            ..t
        },
        5 => Tags { gender: place, ..t },
        6 => Tags { prodid: place, ..t },
        7 => Tags { rev: place, ..t },
        8 => Tags { uid: place, ..t },
        9 => Tags {
            created: place,
            ..t
        },
        _ => Tags {
            language: place,
            ..t
        },
    }
}

// Whether a value is the one that is kept in the store for the k-th property, counted from 1.
pub fn is_kept(t: Tags, k: usize, store: &[u8], value: &[u8]) -> bool
    requires k_nonzero { (0 < k) × (k ≤ singles) }
    requires inside { Inside (length store.now) (places_of t) }
    ensures { result ≡ same_tag (tag_of (map (tag_at store.now) (places_of t)) k) (some value.now) }
{
    let place = place_at(t, k) as usize;
    if place == 0 {
        return false;
    }
    let from = (place - 1) / SPAN;
    let n = (place - 1) % SPAN;
    &store[from..from + n] == value
}

// The state with a value of n octets kept behind the others for the k-th property, counted from 1.
pub fn keep(c: Card, k: usize, n: usize) -> Card
    requires k_nonzero { (0 < k) × (k ≤ singles) }
    requires n_bound { c.used + n ≤ limit.octets }
    ensures { Keeps c k n result }
{
    let place = (c.used * SPAN + n + 1) as u32;
    let tags = c.tags;
    let mut r = c;
    r.tags = with_place(tags, k, place);
    r.used = c.used + n;
    r
}
