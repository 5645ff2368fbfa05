// Cards of version 3 taken in as version 4, and cards of version 4 given out as version 3.
#![tactic(auto)]

ghost use Rattle.std.specs.Prelude.{◌≡◌, ◌≤◌, length};
ghost use Rattle.numbers.specs.Limits as limit;
ghost use Rattle.octets.specs.Room.{filled, written};
ghost use Rattle.version3_judge.specs.Judge.{Next};
ghost use Rattle.version3.specs.Outcome.{concluded, convert_outcome, take_outcome, give_outcome};

mod sheet;

use numbers::limit;
use numbers::refusal::{Reason, Refusal};
use version3_judge::{Phase, Set};
use version3_parameters::Way;

// Writes the card of an input whose lines were judged good: 9 where it ends inside the card.
fn conclude(way: Way, input: &[u8], last: Set, out: &mut [u8]) -> Result<usize, Refusal>
    requires { length input.now ≤ limit.octets }
    ensures { filled (written result) out.new ≡ concluded way (Next last) input.now out.old }
{
    match last.phase {
        Phase::Ended => sheet::write_card(way, input, out),
        Phase::BeforeBegin | Phase::Inside => Err(Refusal(Reason::Order, input.len())),
    }
}

// Writes the card of an input as the other version has it.
fn convert(way: Way, input: &[u8], out: &mut [u8]) -> Result<usize, Refusal>
    ensures { filled (written result) out.new ≡ convert_outcome way input.now out.old }
{
    if limit::OCTETS < input.len() {
        return Err(Refusal(Reason::TooLong, limit::OCTETS));
    }
    if input.len() == 0 {
        return Err(Refusal(Reason::Empty, 0));
    }
    let lone = line_breaks::first_lone(input);
    if lone < input.len() {
        return Err(Refusal(Reason::LoneCrOrLf, lone));
    }
    let ended = line_breaks::ends_cr_lf(input);
    if !ended {
        return Err(Refusal(Reason::NoEnd, input.len()));
    }
    let t = octets::classes::table();
    let rows = property_table::table();
    let steps = value_automaton::scanner::table();
    let last = version3_judge::walk(way, &t, &rows, &steps, input)?;
    conclude(way, input, last, out)
}

// Takes in a card of version 3 as one of version 4: 1 to 5, 40 to 43, 9, 8, 50, 16, 15, else the octets written; nothing is written on a
// refusal.
pub fn take_in(input: &[u8], out: &mut [u8]) -> Result<usize, Refusal>
    ensures { filled (written result) out.new ≡ take_outcome input.now out.old }
{
    convert(Way::Inward, input, out)
}

// Gives out a card of version 4 as one of version 3: the refusals of the reader, 51, 16, 15, else the octets written; nothing is written on a
// refusal.
pub fn give_out(input: &[u8], out: &mut [u8]) -> Result<usize, Refusal>
    ensures { filled (written result) out.new ≡ give_outcome input.now out.old }
{
    reader::judge(input)?;
    convert(Way::Outward, input, out)
}
