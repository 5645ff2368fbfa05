// How many lines of an input have each property number.
#![tactic(auto)]

ghost use Rattle.std.specs.Prelude.{◌≡◌, false, ◌<◌, ◌≤◌, length};
ghost use Rattle.numbers.specs.Limits as limit;
ghost use Rattle.numbers.specs.Properties as property;
ghost use Rattle.octets.specs.Classes.{Classes};
ghost use Rattle.octets.specs.Pick.{pick};
ghost use Rattle.octets.specs.Room.{overlay};
ghost use Rattle.line_folds.specs.Folds.{unfolded};
ghost use Rattle.line_folds.specs.Logical.{logical_lines};
ghost use Rattle.property_table.specs.Rows.{Lists};
ghost use Rattle.report_lines.specs.Rows.{row_of_name, line_counts};

use numbers::{limit, property};
use octets::classes::ClassTable;
use property_table::Edition;
use property_table::rows::PropertyTable;

// How many lines have each property number, 0 for names that are not listed.
pub type LineCounts = [usize; property::COUNT];

// The property number of an unfolded line by its name alone; 0 where no name starts it.
fn row_of(t: &ClassTable, rows: &PropertyTable, s: &[u8]) -> usize
    requires classes { Classes t.now }
    requires lists { Lists rows.now }
    requires s_len_bound { length s.now ≤ limit.octets }
    ensures { (result ≡ row_of_name s.now) × (result < property.count) }
{
    let Ok(head) = line_parser::rule::read_head(t, s) else {
        return property::OTHER;
    };
    let start = card_line::name_start(head.group_length);
    property_table::find_row(rows, Edition::First, &s[start..head.name_end])
}

// The same of a line as it came: as it is where it has no fold, else unfolded into the scratch.
fn row_of_span(
    t: &ClassTable,
    rows: &PropertyTable,
    s: &[u8],
    folded: bool,
    scratch: &mut [u8],
) -> usize
    requires classes { Classes t.now }
    requires lists { Lists rows.now }
    requires s_len_bound { length s.now ≤ limit.octets }
    requires s_in_bounds { length (unfolded s.now) ≤ length scratch.old }
    requires s_value { folded ≡ false → unfolded s.now ≡ s.now }
    ensures value { (result ≡ row_of_name (unfolded s.now)) × (result < property.count) }
    ensures scratch_after { scratch.new ≡ pick folded (overlay (unfolded s.now) scratch.old) scratch.old }
{
    if !folded {
        return row_of(t, rows, s);
    }
    let n = line_unfolding::unfold(s, scratch);
    row_of(t, rows, &scratch[..n])
}

// Counts the lines of an input by their property numbers.
pub fn count_lines(t: &ClassTable, rows: &PropertyTable, s: &[u8]) -> LineCounts
    requires classes { Classes t.now }
    requires lists { Lists rows.now }
    requires s_len_bound { length s.now ≤ limit.octets }
    ensures { result ≡ line_counts (logical_lines s.now) }
{
    let mut scratch = [0u8; limit::OCTETS];
    let mut counts = [0usize; property::COUNT];
    let mut at: usize = 0;
    while at < s.len() {
        let span = line_folds::spans::line_at(s, at);
        let end = span.end;
        let folded = span.cr != end;
        let row = row_of_span(t, rows, &s[at..end], folded, &mut scratch);
        counts[row] += 1;
        at = end + 2;
    }
    counts
}
