// What is wrong with a line that breaks the line rule, in words: what is missing, and at which name or parameter.
ghost use Rattle.std.specs.Prelude.{◌≡◌};
ghost use Rattle.numbers.specs.Refusals.{number};
ghost use Rattle.program_output.specs.Pages.{page, added};
ghost use Rattle.cabbook_rows.specs.Faults.{about, name_words, param_words, quote_words, colon_words, fault_words, is_fault, raw_words, why};

use crate::{under, values};
use line_parser::at_fault;
use line_parser::at_fault::{AtFault, QuoteFault};
use numbers::limit;
use numbers::refusal::{Reason, Refusal};
use octets::slices::part;

// Adds a name between two texts.
fn put_about(room: &mut [u8], at: usize, before: &[u8], name: &[u8], after: &[u8]) -> usize
    ensures { page result room.new ≡ added (about before.now name.now after.now) (page at room.old) }
{
    let before_end = program_output::put_all(room, at, before);
    let name_end = under::put_cut(room, before_end, name, under::NAME);
    program_output::put_all(room, name_end, after)
}

// Adds what is wrong with a name or group.
fn put_name(room: &mut [u8], at: usize, line: &[u8], w: AtFault) -> usize
    ensures { page result room.new ≡ added (name_words w line.now) (page at room.old) }
{
    if w.start < w.end {
        let name = part(line, w.start, w.end);
        return put_about(
            room,
            at,
            b"name ",
            name,
            b" has neither ':' nor ';' after it",
        );
    }
    if w.start == 0 {
        return program_output::put_all(room, at, b"no name at the start of the line");
    }
    put_about(
        room,
        at,
        b"no name after group ",
        part(line, 0, w.start - 1),
        b"",
    )
}

// Adds what is wrong with a parameter's name.
fn put_param(room: &mut [u8], at: usize, line: &[u8], w: AtFault) -> usize
    ensures { page result room.new ≡ added (param_words w line.now) (page at room.old) }
{
    if w.start < w.end {
        return put_about(
            room,
            at,
            b"parameter ",
            part(line, w.start, w.end),
            b" has no '='",
        );
    }
    program_output::put_all(room, at, b"parameter without a name")
}

// Adds what is wrong with a parameter's quotes.
fn put_quote(room: &mut [u8], at: usize, line: &[u8], w: AtFault) -> usize
    ensures { page result room.new ≡ added (quote_words w line.now) (page at room.old) }
{
    let name = part(line, w.start, w.end);
    match at_fault::quote_fault(line, w.end) {
        QuoteFault::LeftOpen => put_about(room, at, b"parameter ", name, b" has a quote left open"),
        QuoteFault::Followed => put_about(
            room,
            at,
            b"parameter ",
            name,
            b" has no ',' ';' or ':' after a closing quote",
        ),
        QuoteFault::InBare => put_about(
            room,
            at,
            b"parameter ",
            name,
            b" has a quote inside a bare value",
        ),
    }
}

// Adds after what the colon is missing.
fn put_colon(room: &mut [u8], at: usize, line: &[u8], w: AtFault) -> usize
    ensures { page result room.new ≡ added (colon_words w line.now) (page at room.old) }
{
    let name = part(line, w.start, w.end);
    if w.is_param {
        return put_about(room, at, b"no ':' after parameter ", name, b"");
    }
    put_about(room, at, b"no ':' after name ", name, b"")
}

// Adds what is wrong with a logical line that is refused with 40 to 43.
#[tactic(auto, using(numbers::proofs::Reasons::other_reason), unfolding(crate::specs::Faults::fault_words))]
fn put_fault(room: &mut [u8], at: usize, line: &[u8], reason: Reason) -> usize
    ensures { page result room.new ≡ added (fault_words (number reason) line.now) (page at room.old) }
{
    let w = at_fault::at_fault(line);
    match reason {
        Reason::Name => put_name(room, at, line, w),
        Reason::Parameter => put_param(room, at, line, w),
        Reason::Quote => put_quote(room, at, line, w),
        _ => put_colon(room, at, line, w),
    }
}

// Whether a refusal is of the line rule.
#[tactic(auto, using(crate::proofs::FaultLaws::no_fault), unfolding(crate::specs::Faults::is_fault))]
fn is_fault(reason: Reason) -> bool
    ensures { result ≡ is_fault (number reason) }
{
    matches!(
        reason,
        Reason::Name | Reason::Parameter | Reason::Quote | Reason::NoColon
    )
}

// Adds what is wrong with a raw line that is refused with 40 to 43; the words of the refusal where it is longer than a text that was read.
fn put_raw(room: &mut [u8], at: usize, line: &[u8], reason: Reason) -> usize
    ensures { page result room.new ≡ added (raw_words (number reason) line.now) (page at room.old) }
{
    if line.len() > limit::READ_ROOM {
        return cabbook_messages::words::put_words(room, at, reason);
    }
    let mut text = [0u8; limit::READ_ROOM];
    let n = line_unfolding::unfold(line, &mut text);
    put_fault(room, at, part(&text, 0, n), reason)
}

// Adds why octets are refused: what is wrong with the line in which the place lies, what its value should be, or by what stands there.
#[tactic(auto, using(numbers::proofs::Reasons::other_reason), unfolding(crate::specs::Faults::why))]
pub fn put_why(room: &mut [u8], at: usize, s: &[u8], r: Refusal) -> usize
    ensures { page result room.new ≡ added (why s.now (number r.0) r.1) (page at room.old) }
{
    let Refusal(reason, place) = r;
    if is_fault(reason) {
        return put_raw(room, at, under::offending(s, r), reason);
    }
    match reason {
        Reason::Value => values::put_wanted(room, at, s, place),
        _ => cabbook_reasons::put_reason(room, at, s, r),
    }
}
