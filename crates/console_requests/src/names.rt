// The requests: one table of their names, and what stands after each.
ghost use Rattle.std.specs.Prelude.{◌≡◌, map};
ghost use Rattle.console_requests.specs.Names.{fits, listed, lists, search, row_of};

use crate::{DeskCall, EntryCall, MergeCall, Name, ReportCall, WatchCall};

// A request, how its name is spelt, how many numbers stand after the name, and whether octets stand after those.
#[derive(Clone, Copy)]
pub struct Row(pub Name, pub &'static [u8], pub u8, pub bool);

const ROWS: [Row; 33] = [
    Row(Name::ToEntry(EntryCall::Judge), b"judge", 0, true),
    Row(Name::ToEntry(EntryCall::Read), b"read", 2, true),
    Row(Name::ToEntry(EntryCall::Fold), b"fold", 1, true),
    Row(Name::ToEntry(EntryCall::Escape), b"escape", 1, true),
    Row(Name::ToEntry(EntryCall::Unescape), b"unescape", 1, true),
    Row(Name::ToDesk(DeskCall::Desk), b"desk", 2, false),
    Row(Name::ToDesk(DeskCall::Open), b"open", 2, false),
    Row(Name::ToDesk(DeskCall::Add), b"add", 2, true),
    Row(Name::ToDesk(DeskCall::Check), b"check", 1, false),
    Row(Name::ToDesk(DeskCall::Show), b"show", 1, false),
    Row(Name::ToDesk(DeskCall::Held), b"held", 1, false),
    Row(Name::ToDesk(DeskCall::Release), b"release", 1, false),
    Row(Name::ToDesk(DeskCall::Pool), b"pool", 2, false),
    Row(Name::ToDesk(DeskCall::Next), b"next", 1, false),
    Row(Name::ToEntry(EntryCall::Encode), b"encode", 2, true),
    Row(Name::ToEntry(EntryCall::Decode), b"decode", 2, true),
    Row(Name::ToEntry(EntryCall::FoldIn), b"fold-in", 3, true),
    Row(Name::ToEntry(EntryCall::Offset), b"offset", 0, true),
    Row(Name::ToReport(ReportCall::Report), b"report", 0, false),
    Row(Name::ToReport(ReportCall::Take), b"take", 0, true),
    Row(Name::ToReport(ReportCall::Print), b"print", 1, false),
    Row(Name::ToReport(ReportCall::Count), b"count", 2, false),
    Row(Name::ToEntry(EntryCall::JudgeIn), b"judge-in", 1, true),
    Row(Name::ToEntry(EntryCall::ReadIn), b"read-in", 3, true),
    Row(Name::ToEntry(EntryCall::TakeIn), b"v3-in", 1, true),
    Row(Name::ToEntry(EntryCall::GiveOut), b"v3-out", 1, true),
    Row(Name::ToMerge(MergeCall::Plan), b"plan", 1, true),
    Row(Name::ToMerge(MergeCall::CheckPlan), b"check-plan", 0, true),
    Row(Name::ToWatch(WatchCall::Begin), b"begin", 1, false),
    Row(Name::ToWatch(WatchCall::Chunk), b"chunk", 0, true),
    Row(Name::ToWatch(WatchCall::End), b"end", 0, false),
    Row(Name::ToWatch(WatchCall::Buffer), b"buffer", 2, false),
    Row(Name::ToWatch(WatchCall::Claim), b"claim", 1, false),
];

impl Row {
    // Whether this is the request of that name with so many words after it.
    fn fits(self, word: &[u8], after: usize) -> bool
        ensures { result ≡ fits word.now after (listed self) }
    {
        usize::from(self.2) + usize::from(self.3) == after && self.1 == word
    }
}

// The first of these rows that has this name and so many words after it.
fn first_of(rows: &[Row], word: &[u8], after: usize) -> Option<Row>
    ensures { lists result ≡ search word.now after (map listed rows.now) }
{
    for row in rows {
        if row.fits(word, after) {
            return Some(*row);
        }
    }
    None
}

// The row of the request that has this name and so many words after it.
pub fn row_of(word: &[u8], after: usize) -> Option<Row>
    ensures { lists result ≡ row_of word.now after }
{
    first_of(&ROWS, word, after)
}
