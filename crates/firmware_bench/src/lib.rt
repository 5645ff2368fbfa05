// For the benchmark alone: escape, labels, read, take of a report and the desk's calls, for C to time.
#![tactic(auto)]

ghost use Rattle.std.specs.Prelude.{◌≡◌, ◌+◌, get_or};
ghost use Rattle.numbers.specs.Refusals.{number as reason_number};
ghost use Rattle.numbers.specs.Counts as places;
ghost use Rattle.numbers.specs.Properties as property;
ghost use Rattle.octets.specs.Room.{written};
ghost use Rattle.reader.specs.Outcome.{read_in};
ghost use Rattle.property_table.specs.declared.Edition.TheVariants.{First};
ghost use Rattle.report.specs.Steps.{fresh_report, take_step};
ghost use Rattle.text.specs.Outcomes.{escape_outcome};
ghost use Rattle.label.specs.Outcomes.{encode_outcome, decode_outcome};
ghost use Rattle.label_carets.specs.declared.Rule.TheVariants.{Rfc6868};
ghost use Rattle.firmware_bench.specs.Answers.{number, written_number, verdict_number, answer_number};
ghost use Rattle.firmware_bench.specs.Calls.{served};

use desk::Desk;
use label_carets::Rule;
use numbers::refusal::Refusal;
use numbers::{count, limit, property};
use property_table::Edition;
use report::Report;

mod calls;

// Packs a refusal's number above all counts.
fn pack_refusal(r: Refusal) -> u64
    ensures { result ≡ number (reason_number r.0) }
{
    let n = r.0.number();
    (n as u64) * limit::WORD
}

// Packs what is answered: the count, or the refusal.
fn pack_count(r: Result<usize, Refusal>) -> u64
    ensures { result ≡ written_number (written r) }
{
    match r {
        Ok(n) => n as u64,
        Err(r) => pack_refusal(r),
    }
}

// Escapes a text: the count of octets written, or the refusal; the room is as escaping leaves it.
#[unsafe(no_mangle)]
pub extern "C" fn timed_escape(text: &[u8], out: &mut [u8]) -> u64
    ensures value { result ≡ written_number (escape_outcome text.now out.old).answer }
    ensures out_after { out.new ≡ (escape_outcome text.now out.old).room }
{
    pack_count(text::escape(text, out))
}

// Encodes a value by RFC 6868: the count of octets written, or the refusal; the room is as encoding leaves it.
#[unsafe(no_mangle)]
pub extern "C" fn timed_encode(value: &[u8], out: &mut [u8]) -> u64
    ensures value { result ≡ written_number (encode_outcome Rfc6868 value.now out.old).answer }
    ensures out_after { out.new ≡ (encode_outcome Rfc6868 value.now out.old).room }
{
    pack_count(label::encode(Rule::Rfc6868, value, out))
}

// Decodes a label by RFC 6868: the count of octets written, or the refusal; the room is as decoding leaves it.
#[unsafe(no_mangle)]
pub extern "C" fn timed_decode(label: &[u8], out: &mut [u8]) -> u64
    ensures value { result ≡ written_number (decode_outcome Rfc6868 label.now out.old).answer }
    ensures out_after { out.new ≡ (decode_outcome Rfc6868 label.now out.old).room }
{
    pack_count(label::decode(Rule::Rfc6868, label, out))
}

// Reads an input: the count of cards, or the refusal; the rooms are as the reader leaves them.
#[unsafe(no_mangle)]
pub extern "C" fn timed_read(input: &[u8], copy: &mut [u8], records: &mut [u32]) -> u64
    ensures value { result ≡ verdict_number (read_in First input.now copy.old records.old).answer }
    ensures copy_after { copy.new ≡ (read_in First input.now copy.old records.old).copy }
    ensures records_after { records.new ≡ (read_in First input.now copy.old records.old).records }
{
    match reader::read(Edition::First, input, copy, records) {
        Ok(counts) => counts.cards as u64,
        Err(r) => pack_refusal(r),
    }
}

// Takes the judgement of an input into a fresh report, and answers how many BEGIN lines it then has.
#[unsafe(no_mangle)]
pub extern "C" fn timed_take(input: &[u8]) -> u64
    ensures { result ≡ get_or (take_step fresh_report input.now).report.counts (places.properties + property.begin) 0 }
{
    let fresh = Report::new();
    let taken = fresh.take(input);
    let counts = taken.report.counts;
    counts[count::PROPERTIES + property::BEGIN] as u64
}

// Makes n calls of a kind to a desk of 40 slots, after so many openings and additions of the chunk, and answers as the last of them does.
#[unsafe(no_mangle)]
pub extern "C" fn timed_desk(
    pool: &mut [u8],
    chunk: &[u8],
    opens: u32,
    adds: usize,
    kind: u32,
    n: usize,
) -> u64
    ensures value { result ≡ answer_number (served pool.old chunk.now opens adds kind n).answer }
    ensures pool_after { pool.new ≡ (served pool.old chunk.now opens adds kind n).pool }
{
    let fresh = Desk::new(limit::SLOTS);
    let opened = calls::run(fresh, pool, chunk, calls::OPEN, opens, opens as usize);
    let ready = calls::run(opened, pool, chunk, calls::ADD, opens, adds);
    let done = calls::run(ready, pool, chunk, kind, opens, n);
    pack_count(done.answer)
}
