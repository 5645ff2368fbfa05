// The static library for C: the routines of firmware under their own names.
#![tactic(auto)]

ghost use Rattle.std.specs.Prelude.{◌≡◌};
ghost use Rattle.reader.specs.Outcome.{judge_of};
ghost use Rattle.folder.specs.Outcome.{fold_outcome};
ghost use Rattle.text.specs.Outcomes.{unescape_outcome};
ghost use Rattle.firmware.specs.Word.{verdict_word, worded, word_outcome};

// Judges an input: the count of cards, or the refusal.
#[unsafe(no_mangle)]
pub extern "C" fn judge(input: &[u8]) -> u64
    ensures { result ≡ verdict_word (judge_of input.now) }
{
    firmware::judge(input)
}

// Folds an input into a room, its names in capitals: the count of octets written, or the refusal; the room is as the folder leaves it.
#[unsafe(no_mangle)]
pub extern "C" fn fold(input: &[u8], out: &mut [u8]) -> u64
    ensures { worded result out.new ≡ word_outcome (fold_outcome input.now out.old) }
{
    firmware::fold(input, out)
}

// Unescapes a text into a room: the count of octets written, or the refusal; the room is as unescaping leaves it.
#[unsafe(no_mangle)]
pub extern "C" fn unescape(text: &[u8], out: &mut [u8]) -> u64
    ensures { worded result out.new ≡ word_outcome (unescape_outcome text.now out.old) }
{
    firmware::unescape(text, out)
}
