// For the benchmark alone: the reader of chunks, for C to time in a library of its own; a refusal is its number alone.
#![tactic(auto)]

ghost use Rattle.std.specs.Prelude.{◌≡◌};
ghost use Rattle.numbers.specs.Refusals.{number as reason_number};
ghost use Rattle.reader.specs.Outcome.{judge_of, verdict};
ghost use Rattle.firmware_watch.specs.Answers.{number, verdict_number};

use numbers::limit;
use numbers::refusal::Refusal;
use reader::Verdict;

mod chunks;

// Packs a refusal's number above all counts.
fn pack_refusal(r: Refusal) -> u64
    ensures { result ≡ number (reason_number r.0) }
{
    let n = r.0.number();
    (n as u64) * limit::WORD
}

// Packs a verdict: the count of cards, or the refusal.
fn pack_verdict(v: Verdict) -> u64
    ensures { result ≡ verdict_number (verdict v) }
{
    match v {
        Ok(counts) => counts.cards as u64,
        Err(r) => pack_refusal(r),
    }
}

// Feeds an input to the reader of chunks, `size` octets at a time, and ends it: the count of cards, or the refusal, as the reader has it for the whole input.
#[unsafe(no_mangle)]
pub extern "C" fn timed_watch(input: &[u8], size: usize) -> u64
    ensures { result ≡ verdict_number (judge_of input.now) }
{
    let mut buffer = [0u8; limit::OCTETS];
    let w = chunks::feed(input, size, &mut buffer);
    let v = w.end(&buffer);
    pack_verdict(v)
}
