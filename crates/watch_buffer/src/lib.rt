// The lent buffer: octets put behind those that it holds, and a part of it cleared.
#![tactic(auto)]

ghost use Rattle.std.specs.Prelude.{◌≡◌, ◌+◌, ◌-◌, ◌≤◌, length, replicate};
ghost use Rattle.desk_pool.specs.Pools.{patch};

// Copies octets behind the first `used` of the buffer.
pub fn append(buffer: &mut [u8], used: usize, octets: &[u8])
    requires { used + length octets.now ≤ length buffer.old }
    ensures { buffer.new ≡ patch buffer.old used octets.now }
{
    octets::copying::copy_in(&mut buffer[used..], octets);
}

// Sets the octets from `from` up to `to` to 0.
pub fn clear(buffer: &mut [u8], from: usize, to: usize)
    requires { (from ≤ to) × (to ≤ length buffer.old) }
    ensures { buffer.new ≡ patch buffer.old from (replicate (to - from) 0) }
{
    octets::copying::zero(&mut buffer[from..to]);
}
