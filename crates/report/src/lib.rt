// The morning report: counts of judgements, taken one by one and printed.
#![tactic(auto)]

pub mod rows;

ghost use Rattle.std.specs.Prelude.{◌≡◌, false, length};
ghost use Rattle.numbers.specs.Counts as places;
ghost use Rattle.octets.specs.Room.{written, filled, fill};
ghost use Rattle.report.specs.Answer.{taken};
ghost use Rattle.report.specs.Steps.{over, sums, fresh_report, take_step};
ghost use Rattle.report.specs.Text.{report_text};

use numbers::refusal::{Reason, Refusal};
use numbers::{count, limit};
use octets::indices::wide_number;
use report_weights::Weights;

// The counts of a report, by place.
pub type Counts = [u32; count::ALL];

// A report: its counts.
#[derive(Clone, Copy, Debug, PartialEq, Eq)]
pub struct Report {
    pub counts: Counts,
}

// What taking a judgement gives: whether it is counted, or the refusal, and the next report.
#[derive(Clone, Copy, Debug, PartialEq, Eq)]
pub struct Taken {
    pub answer: Result<(), Refusal>,
    pub report: Report,
}

// Whether a count would pass the largest number of 32 bits.
fn is_over(counts: &Counts, w: &Weights) -> bool
    ensures { result ≡ over counts.now w.now }
{
    for (place, n) in counts.iter().enumerate() {
        if limit::LARGEST - wide_number(*n) < w[place] {
            return true;
        }
    }
    false
}

// Each count with what is added to it.
fn add(counts: &Counts, w: &Weights) -> Counts
    requires { over counts.now w.now ≡ false }
    ensures { result ≡ sums counts.now w.now }
{
    let mut next = [0u32; count::ALL];
    for (place, n) in counts.iter().enumerate() {
        next[place] = (wide_number(*n) + w[place]) as u32;
    }
    next
}

impl Report {
    // Makes a fresh report: every count is 0.
    pub fn new() -> Report
        ensures { result ≡ fresh_report }
    {
        Report {
            counts: [0u32; count::ALL],
        }
    }

    // Judges an input and counts the judgement, or refuses it with REPORT_FULL and leaves every count as it is.
    pub fn take(self, input: &[u8]) -> Taken
        ensures { taken result ≡ take_step self input.now }
    {
        let counts = self.counts;
        let w = report_weights::weigh(input);
        if is_over(&counts, &w) {
            return Taken {
                answer: Err(Refusal(Reason::ReportFull, 0)),
                report: self,
            };
        }
        let next = add(&counts, &w);
        Taken {
            answer: Ok(()),
            report: Report { counts: next },
        }
    }

    // Writes the report's rows to the start of the room and answers their octets, or refuses with ROOM.
    pub fn print(self, out: &mut [u8]) -> Result<usize, Refusal>
        ensures { filled (written result) out.new ≡ fill (report_text self) out.old }
    {
        let counts = self.counts;
        let mut page = [0u8; rows::PAGE];
        let n = rows::put_rows(&mut page, &counts);
        if out.len() < n {
            return Err(Refusal(Reason::Room, n));
        }
        octets::copying::copy_in(out, &page[..n]);
        Ok(n)
    }
}
