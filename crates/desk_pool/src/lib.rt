// A lent pool of 16,384 octets a slot: a slot's octets shown, added to and zeroed.
#![tactic(auto)]

ghost use Rattle.std.specs.Prelude.{◌≡◌, ◌+◌, ◌*◌, ◌≤◌, length};
ghost use Rattle.numbers.specs.Limits as limit;
ghost use Rattle.desk_pool.specs.Pools.{patch, zeros, part_of, Lies};

use numbers::limit;

// Hands out the first octets of a slot, the part of the pool itself.
pub fn part(pool: &[u8], slot: usize, held: usize) -> &[u8]
    requires { slot * limit.octets + held ≤ length pool.now }
    ensures { Lies pool.entry result (part_of pool.now slot held) }
{
    let start = slot * limit::OCTETS;
    let end = start + held;
    &pool[start..end]
}

// Copies a chunk into a slot behind the octets held.
pub fn put(pool: &mut [u8], slot: usize, held: usize, chunk: &[u8])
    requires { slot * limit.octets + held + length chunk.now ≤ length pool.old }
    ensures { pool.new ≡ patch pool.old (slot * limit.octets + held) chunk.now }
{
    let from = slot * limit::OCTETS + held;
    octets::copying::copy_in(&mut pool[from..], chunk);
}

// Zeroes a slot.
pub fn clear(pool: &mut [u8], slot: usize)
    requires { slot * limit.octets + limit.octets ≤ length pool.old }
    ensures { pool.new ≡ patch pool.old (slot * limit.octets) zeros }
{
    let first = slot * limit::OCTETS;
    let past = first + limit::OCTETS;
    octets::copying::zero(&mut pool[first..past]);
}
