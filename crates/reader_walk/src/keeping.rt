// The scratch of a walk: the ALTID values that a card's state keeps stand at its front, and the line at hand is unfolded behind them.
ghost use Rattle.std.specs.Prelude.{◌≡◌, ◌++◌, ◌+◌, ◌≤◌, length, take, drop};
ghost use Rattle.line_folds.specs.Folds.{unfolded};
ghost use Rattle.reader_walk.specs.Walk.{behind};

// Copies a value behind the first `used` octets.
pub fn keep(scratch: &mut [u8], used: usize, value: &[u8])
    requires { used + length value.now ≤ length scratch.old }
    ensures { scratch.new ≡ behind used value.now scratch.old }
{
    octets::copying::copy_in(&mut scratch[used..], value);
}

// Unfolds a line behind the first `used` octets, and answers its length.
pub fn unfold_behind(s: &[u8], scratch: &mut [u8], used: usize) -> usize
    requires { used + length (unfolded s.now) ≤ length scratch.old }
    ensures value { result ≡ length (unfolded s.now) }
    ensures scratch_after { scratch.new ≡ behind used (unfolded s.now) scratch.old }
{
    line_unfolding::unfold(s, &mut scratch[used..])
}

// Moves the n octets at `from` down to `to`.
pub fn move_down(scratch: &mut [u8], to: usize, from: usize, n: usize)
    requires { (to ≤ from) × (from + n ≤ length scratch.old) }
    ensures { scratch.new ≡ behind to (take n (drop from scratch.old)) scratch.old }
{
    for i in 0..n {
        scratch[to + i] = scratch[from + i];
    }
}
