// The console's answers: the words of each, added to the output, which is a lent page.
#![tactic(auto)]

ghost use Rattle.std.specs.Prelude.{◌≡◌, ◌∷◌, ◌≤◌, nat_abs};
ghost use Rattle.numbers.specs.Refusals.{number};
ghost use Rattle.octets.specs.Room.{written};
ghost use Rattle.reader.specs.Outcome.{verdict};
ghost use Rattle.desk.specs.Answer.{answer};
ghost use Rattle.program_output.specs.Pages.{page, added};
ghost use Rattle.program_output.specs.Digits.{decimal};
ghost use Rattle.value_offsets.specs.Minutes.{most_minutes, Bounded};
ghost use Rattle.console_answers.specs.Texts.{line_end, bad_line, refusal_text, done_text, verdict_text, written_text, answer_text, offset_text, signed_word, octets_word, spaced, joined, room_end};

use numbers::refusal::Refusal;
use reader::{Counts, Verdict};
use value_offsets::Offset;

pub mod hex;

// Adds the end of a line, LF.
pub fn put_end(out: &mut [u8], at: usize) -> usize
    ensures { page result out.new ≡ added line_end (page at out.old) }
{
    program_output::put(out, at, b'\n')
}

// Adds `bad request`, a whole line.
pub fn put_bad(out: &mut [u8], at: usize) -> usize
    ensures { page result out.new ≡ added bad_line (page at out.old) }
{
    program_output::put_all(out, at, b"bad request\n")
}

// Adds a mark and a number.
fn put_after(out: &mut [u8], at: usize, mark: u8, n: usize) -> usize
    ensures { page result out.new ≡ added (mark ∷ decimal n) (page at out.old) }
{
    let end = program_output::put(out, at, mark);
    program_output::digits::put_number(out, end, n)
}

// Adds `no NUMBER PLACE`.
pub fn put_no(out: &mut [u8], at: usize, number: u32, place: usize) -> usize
    ensures { page result out.new ≡ added (refusal_text number place) (page at out.old) }
{
    let word = program_output::put_all(out, at, b"no");
    let end = put_after(out, word, b' ', number as usize);
    put_after(out, end, b' ', place)
}

// Adds `no NUMBER PLACE` of a refusal.
pub fn put_refusal(out: &mut [u8], at: usize, refusal: Refusal) -> usize
    ensures { page result out.new ≡ added (refusal_text (number refusal.0) refusal.1) (page at out.old) }
{
    let Refusal(reason, place) = refusal;
    put_no(out, at, reason.number(), place)
}

// Adds `ok NUMBER`.
pub fn put_done(out: &mut [u8], at: usize, number: usize) -> usize
    ensures { page result out.new ≡ added (done_text number) (page at out.old) }
{
    let word = program_output::put_all(out, at, b"ok");
    put_after(out, word, b' ', number)
}

// Adds `ok CARDS LINES`, or the refusal.
pub fn put_verdict(out: &mut [u8], at: usize, v: Verdict) -> usize
    ensures { page result out.new ≡ added (verdict_text (verdict v)) (page at out.old) }
{
    match v {
        Ok(Counts { cards, lines }) => {
            let end = put_done(out, at, cards);
            put_after(out, end, b' ', lines)
        }
        Err(refusal) => put_refusal(out, at, refusal),
    }
}

// Adds `ok NUMBER`, or the refusal, of a call of the desk.
pub fn put_answer(out: &mut [u8], at: usize, a: Result<usize, Refusal>) -> usize
    ensures { page result out.new ≡ added (answer_text (answer a)) (page at out.old) }
{
    match a {
        Ok(n) => put_done(out, at, n),
        Err(denied) => put_refusal(out, at, denied),
    }
}

// Adds a number, with a hyphen before it where it is below 0.
fn put_signed(out: &mut [u8], at: usize, z: i32) -> usize
    requires { nat_abs z ≤ most_minutes }
    ensures { page result out.new ≡ added (signed_word z) (page at out.old) }
{
    let n = z.unsigned_abs() as usize;
    if z < 0 {
        return put_after(out, at, b'-', n);
    }
    program_output::digits::put_number(out, at, n)
}

// Adds `ok MINUTES`, or the refusal, of an offset.
pub fn put_offset(out: &mut [u8], at: usize, o: Offset) -> usize
    requires { Bounded o }
    ensures { page result out.new ≡ added (offset_text o) (page at out.old) }
{
    match o {
        Offset::Minutes(z) => {
            let word = program_output::put_all(out, at, b"ok ");
            put_signed(out, word, z)
        }
        Offset::Refused(number, place) => put_no(out, at, number, place),
    }
}

// Adds `ok COUNT OCTETS` with the octets written to room, or the refusal.
pub fn put_written(out: &mut [u8], at: usize, w: Result<usize, Refusal>, room: &[u8]) -> usize
    ensures { page result out.new ≡ added (written_text (written w) room.now) (page at out.old) }
{
    match w {
        Ok(count) => {
            let end = put_done(out, at, count);
            put_spaced_octets(out, end, octets::slices::part(room, 0, count))
        }
        Err(unwritten) => put_refusal(out, at, unwritten),
    }
}

// Adds a space and octets.
pub fn put_spaced_octets(out: &mut [u8], at: usize, s: &[u8]) -> usize
    ensures { page result out.new ≡ added (spaced (octets_word s.now)) (page at out.old) }
{
    let end = program_output::put(out, at, b' ');
    hex::put_octets(out, end, s)
}

// Adds a space and numbers joined by commas.
pub fn put_spaced_numbers(out: &mut [u8], at: usize, s: &[u32]) -> usize
    ensures { page result out.new ≡ added (spaced (joined s.now)) (page at out.old) }
{
    let start = program_output::put(out, at, b' ');
    let Some((first, rest)) = s.split_first() else {
        return start;
    };
    let mut end = program_output::digits::put_number(out, start, *first as usize);
    for n in rest {
        end = put_after(out, end, b',', *n as usize);
    }
    end
}

// Adds the line's end, after the word `touched` where the room is not as it was.
pub fn put_room_end(out: &mut [u8], at: usize, kept: bool) -> usize
    ensures { page result out.new ≡ added (room_end kept) (page at out.old) }
{
    if kept {
        return put_end(out, at);
    }
    program_output::put_all(out, at, b" touched\n")
}
