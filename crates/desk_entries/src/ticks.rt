// The ticks that stand beside a desk's entries: the one that counts, and when a session is idle.
ghost use Rattle.std.specs.Prelude.{◌≡◌};
ghost use Rattle.desk_entries.specs.Ticks.{higher, idle};

// How many ticks a desk is ahead of an idle session at least.
pub const IDLE: u32 = 600;

// Takes the higher of two ticks.
pub fn higher(a: u32, b: u32) -> u32
    ensures { result ≡ higher a b }
{
    a.max(b)
}

// Tells whether a session with that tick is idle when the desk's tick is `now`.
pub fn is_idle(tick: u32, now: u32) -> bool
    ensures { result ≡ idle tick now }
{
    if now < IDLE {
        return false;
    }
    tick <= now - IDLE
}
