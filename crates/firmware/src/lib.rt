// The routines that C firmware calls, on byte ranges, one number as the answer of each; firmware_c exports them.
#![tactic(auto)]

ghost use Rattle.std.specs.Prelude.{◌≡◌, ◌<◌};
ghost use Rattle.numbers.specs.Limits as limit;
ghost use Rattle.numbers.specs.Refusals.{number};
ghost use Rattle.octets.specs.Room.{written};
ghost use Rattle.reader.specs.Outcome.{judge_of};
ghost use Rattle.folder.specs.Outcome.{fold_outcome};
ghost use Rattle.text.specs.Outcomes.{unescape_outcome};
ghost use Rattle.firmware.specs.Word.{word, verdict_word, written_word, worded, word_outcome, Low};

use numbers::limit;
use numbers::refusal::Refusal;
use property_table::Edition;

// Packs a refusal's number and place into one word.
fn pack_refusal(r: Refusal) -> u64
    requires { r.1 < limit.word }
    ensures { result ≡ word (number r.0) r.1 }
{
    let Refusal(reason, p) = r;
    let n = reason.number();
    (n as u64) * limit::WORD + (p as u64)
}

// Judges an input: the count of cards, or the refusal.
pub fn judge(input: &[u8]) -> u64
    ensures { result ≡ verdict_word (judge_of input.now) }
{
    match reader::judge(input) {
        Ok(counts) => counts.cards as u64,
        Err(r) => pack_refusal(r),
    }
}

// Packs the answer of an entry that writes octets into one word.
fn pack_written(w: Result<usize, Refusal>) -> u64
    requires { Low (written w) }
    ensures { result ≡ written_word (written w) }
{
    match w {
        Ok(n) => n as u64,
        Err(r) => pack_refusal(r),
    }
}

// Folds an input into a room, its names in capitals: the count of octets written, or the refusal; the room is as the folder leaves it.
pub fn fold(input: &[u8], out: &mut [u8]) -> u64
    ensures { worded result out.new ≡ word_outcome (fold_outcome input.now out.old) }
{
    let w = folder::fold(Edition::First, input, out);
    pack_written(w)
}

// Unescapes a text into a room: the count of octets written, or the refusal; the room is as unescaping leaves it.
pub fn unescape(text: &[u8], out: &mut [u8]) -> u64
    ensures { worded result out.new ≡ word_outcome (unescape_outcome text.now out.old) }
{
    let w = text::unescape(text, out);
    pack_written(w)
}
