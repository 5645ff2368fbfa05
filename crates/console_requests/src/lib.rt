// A request line of the console: its words, the request that the first one names, and the numbers and octets of the others.
#![tactic(auto)]

mod names;

ghost use Rattle.std.specs.Prelude.{◌≡◌};
ghost use Rattle.console_words.specs.Words.{word_at};
ghost use Rattle.console_requests.specs.Names.{listed};
ghost use Rattle.console_requests.specs.Requests.{number_at, requested, read, request_of};

use names::Row;

// The requests to the entries that keep nothing.
#[derive(Clone, Copy, Debug, PartialEq, Eq)]
pub enum EntryCall {
    Judge,
    Read,
    Fold,
    Escape,
    Unescape,
    Encode,
    Decode,
    FoldIn,
    Offset,
    JudgeIn,
    ReadIn,
    TakeIn,
    GiveOut,
}

// The requests of the desk.
#[derive(Clone, Copy, Debug, PartialEq, Eq)]
pub enum DeskCall {
    Desk,
    Open,
    Add,
    Check,
    Show,
    Held,
    Release,
    Pool,
    Next,
}

// The requests of the report.
#[derive(Clone, Copy, Debug, PartialEq, Eq)]
pub enum ReportCall {
    Report,
    Take,
    Print,
    Count,
}

// The requests of two edits of one card.
#[derive(Clone, Copy, Debug, PartialEq, Eq)]
pub enum MergeCall {
    Plan,
    CheckPlan,
}

// The requests of the reader of chunks.
#[derive(Clone, Copy, Debug, PartialEq, Eq)]
pub enum WatchCall {
    Begin,
    Chunk,
    End,
    Buffer,
    Claim,
}

// The requests.
#[derive(Clone, Copy, Debug, PartialEq, Eq)]
pub enum Name {
    ToEntry(EntryCall),
    ToDesk(DeskCall),
    ToReport(ReportCall),
    ToMerge(MergeCall),
    ToWatch(WatchCall),
}

// A number that the request does not have is 0, and count octets stand at the front of the room lent for them.
#[derive(Clone, Copy, Debug, PartialEq, Eq)]
pub struct Request {
    pub name: Name,
    pub first: usize,
    pub second: usize,
    pub third: usize,
    pub count: usize,
}

// Number k after the name, of so many.
fn number(line: &[u8], k: usize, numbers: usize) -> Option<usize>
    ensures { result ≡ number_at (word_at line.now k) k numbers }
{
    if numbers < k {
        return Some(0);
    }
    program_numbers::decimal::number_of(console_words::word(line, k))
}

// What a line says that starts with this row's name, with its octets at the front of out.
fn read_row(row: Row, line: &[u8], out: &mut [u8]) -> Option<Request>
    ensures { requested result out.new ≡ read (listed row) line.now out.old }
{
    let Row(name, _, numbers, octets) = row;
    let numbers = usize::from(numbers);
    let first = number(line, 1, numbers)?;
    let second = number(line, 2, numbers)?;
    let third = number(line, 3, numbers)?;
    let count = if octets {
        program_numbers::hex::octets_of(console_words::word(line, numbers + 1), out)?
    } else {
        0
    };
    Some(Request {
        name,
        first,
        second,
        third,
        count,
    })
}

// The request of a line, with its octets at the front of out; out stays as it is where there is none.
pub fn request_of(line: &[u8], out: &mut [u8]) -> Option<Request>
    ensures { requested result out.new ≡ request_of line.now out.old }
{
    let row = names::row_of(console_words::word(line, 0), console_words::spaces(line))?;
    read_row(row, line, out)
}
