// The table of a morning's uploads: its titles, a row for each upload, the line under it, and the exit status.
ghost use Rattle.std.specs.Prelude.{◌≡◌, ◌+◌, ◌≤◌, min};
ghost use Rattle.program_output.specs.Pages.{page, added};
ghost use Rattle.cabbook_tables.specs.Uploads.{titles, verdict_text, same_text, counts_text, upload_row, note, totals, summary, status_of};
ghost use Rattle.reader.specs.Outcome.{verdict};
ghost use Rattle.cabbook_tables.specs.Statuses as status;
ghost use Rattle.numbers.specs.Limits as limit;

use crate::status;
use cabbook_messages::sentences;
use reader::Verdict;

// How many characters the column of the cards has.
const CARDS_WIDTH: usize = 5;

// How many characters the columns of the tickets and of the octets have.
const COUNT_WIDTH: usize = 6;

// Adds the names of the columns, where that of the trams has so many characters.
pub fn put_titles(room: &mut [u8], at: usize, width: usize) -> usize
    ensures { page result room.new ≡ added (titles width) (page at room.old) }
{
    let tram_end = cabbook_columns::put_column(room, at, b"tram", width);
    program_output::put_all(room, tram_end, b"ticket  octets  cards  verdict\n")
}

// Adds the count of cards and the verdict.
fn put_verdict(room: &mut [u8], at: usize, v: Verdict) -> usize
    ensures { page result room.new ≡ added (verdict_text (verdict v)) (page at room.old) }
{
    match v {
        Ok(counts) => {
            let cards_end = cabbook_columns::put_right(room, at, counts.cards, CARDS_WIDTH);
            program_output::put_all(room, cards_end, b"  accepted")
        }
        Err(r) => {
            let start = program_output::put_all(room, at, b"    -  ");
            let refusal_end = sentences::put_refusal(room, start, r);
            let colon_end = program_output::put_all(room, refusal_end, b": ");
            cabbook_messages::words::put_words(room, colon_end, r.0)
        }
    }
}

// Adds the end of a row, which says so where an upload holds other octets than its file.
fn put_sameness(room: &mut [u8], at: usize, same: bool) -> usize
    ensures { page result room.new ≡ added (same_text same) (page at room.old) }
{
    if same {
        return program_output::put_all(room, at, b"\n");
    }
    program_output::put_all(room, at, b"; what it holds is not its file's\n")
}

// Adds the columns of the ticket and of the octets.
fn put_counts(room: &mut [u8], at: usize, ticket: usize, octets: usize) -> usize
    ensures { page result room.new ≡ added (counts_text ticket octets) (page at room.old) }
{
    let ticket_end = cabbook_columns::put_right(room, at, ticket, COUNT_WIDTH);
    let gap_end = program_output::put_all(room, ticket_end, b"  ");
    let octets_end = cabbook_columns::put_right(room, gap_end, octets, COUNT_WIDTH);
    program_output::put_all(room, octets_end, b"  ")
}

// Adds the row of an upload.
pub fn put_upload(
    room: &mut [u8],
    at: usize,
    path: &[u8],
    width: usize,
    ticket: usize,
    octets: usize,
    v: Verdict,
    same: bool,
) -> usize
    ensures { page result room.new ≡ added (upload_row path.now width ticket octets (verdict v) same) (page at room.old) }
{
    let path_end = cabbook_columns::put_column(room, at, path, width);
    let counts_end = put_counts(room, path_end, ticket, octets);
    let verdict_end = put_verdict(room, counts_end, v);
    put_sameness(room, verdict_end, same)
}

// Adds a text where there is none, else how many things there are and what is said of them.
fn put_note(room: &mut [u8], at: usize, n: usize, none: &[u8], thing: &[u8], end: &[u8]) -> usize
    ensures { page result room.new ≡ added (note n none.now thing.now end.now) (page at room.old) }
{
    if n == 0 {
        return program_output::put_all(room, at, none);
    }
    let start = program_output::put_all(room, at, b"; ");
    let count_end = sentences::put_count(room, start, n, thing);
    program_output::put_all(room, count_end, end)
}

// A sum, as far as numbers go.
fn sum(a: usize, b: usize) -> usize
    ensures { result ≡ min (a + b) limit.largest64 }
{
    a.saturating_add(b)
}

// Adds how many uploads there are, and how many are accepted and refused.
fn put_totals(room: &mut [u8], at: usize, accepted: usize, refused: usize) -> usize
    ensures { page result room.new ≡ added (totals accepted refused) (page at room.old) }
{
    let count_end = sentences::put_count(room, at, sum(accepted, refused), b" upload");
    let start = program_output::put_all(room, count_end, b": ");
    let accepted_end = sentences::put_amount(room, start, accepted, b" accepted, ");
    sentences::put_amount(room, accepted_end, refused, b" refused")
}

// Adds the line under the table.
pub fn put_summary(
    room: &mut [u8],
    at: usize,
    accepted: usize,
    refused: usize,
    reclaimed: usize,
    differing: usize,
    unread: usize,
) -> usize
    ensures { page result room.new ≡ added (summary accepted refused reclaimed differing unread) (page at room.old) }
{
    let totals_end = put_totals(room, at, accepted, refused);
    let reclaimed_end = put_note(room, totals_end, reclaimed, b"", b" upload", b" reclaimed");
    let comparison_end = put_note(
        room,
        reclaimed_end,
        differing,
        b"; what each upload holds is its file's",
        b" upload",
        b" with other octets than its file",
    );
    put_note(
        room,
        comparison_end,
        unread,
        b"\n",
        b" file",
        b" not read\n",
    )
}

// The exit status of a morning.
pub fn status_of(refused: usize, differing: usize, unread: usize) -> u8
    ensures value { result ≡ status_of refused differing unread }
    ensures upper_bound { result ≤ status.failed }
{
    if unread > 0 {
        return status::FAILED;
    }
    if refused > 0 {
        return status::REFUSED;
    }
    if differing > 0 {
        return status::REFUSED;
    }
    status::ACCEPTED
}
