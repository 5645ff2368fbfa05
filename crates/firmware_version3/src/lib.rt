// For the benchmark alone: version 3 sets, for C to time in a library of its own; a refusal is its number alone.
#![tactic(auto)]

ghost use Rattle.std.specs.Prelude.{◌≡◌};
ghost use Rattle.numbers.specs.Refusals.{number as reason_number};
ghost use Rattle.octets.specs.Room.{written};
ghost use Rattle.version3.specs.Outcome.{take_outcome, give_outcome};
ghost use Rattle.firmware_version3.specs.Answers.{number, written_number};

use numbers::limit;
use numbers::refusal::Refusal;

// Packs a refusal's number above all counts.
fn pack_refusal(r: Refusal) -> u64
    ensures { result ≡ number (reason_number r.0) }
{
    let n = r.0.number();
    (n as u64) * limit::WORD
}

// Packs what is answered: the count of octets written, or the refusal.
fn pack_written(r: Result<usize, Refusal>) -> u64
    ensures { result ≡ written_number (written r) }
{
    match r {
        Ok(n) => n as u64,
        Err(r) => pack_refusal(r),
    }
}

// Takes in a card of version 3: the count of octets written, or the refusal; the room is as taking in leaves it.
#[unsafe(no_mangle)]
pub extern "C" fn timed_take_in(input: &[u8], out: &mut [u8]) -> u64
    ensures value { result ≡ written_number (take_outcome input.now out.old).answer }
    ensures out_after { out.new ≡ (take_outcome input.now out.old).room }
{
    pack_written(version3::take_in(input, out))
}

// Gives out a card as one of version 3: the count of octets written, or the refusal; the room is as giving out leaves it.
#[unsafe(no_mangle)]
pub extern "C" fn timed_give_out(input: &[u8], out: &mut [u8]) -> u64
    ensures value { result ≡ written_number (give_outcome input.now out.old).answer }
    ensures out_after { out.new ≡ (give_outcome input.now out.old).room }
{
    pack_written(version3::give_out(input, out))
}
