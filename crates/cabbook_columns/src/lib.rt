// Text in columns of a lent page.
#![tactic(auto)]

ghost use Rattle.std.specs.Prelude.{◌≡◌, ◌-◌, replicate};
ghost use Rattle.program_output.specs.Pages.{page, added};
ghost use Rattle.cabbook_columns.specs.Columns.{at_left, at_right};

use program_output::digits::DIGITS;

// Adds the spaces that a column of so many characters has beside so many others.
pub fn put_gap(room: &mut [u8], at: usize, used: usize, width: usize) -> usize
    ensures { page result room.new ≡ added (replicate (width - used) 32) (page at room.old) }
{
    program_output::put_spaces(room, at, width.saturating_sub(used))
}

// Adds a text in a column of so many cells, and a space.
pub fn put_column(room: &mut [u8], at: usize, text: &[u8], width: usize) -> usize
    ensures { page result room.new ≡ added (at_left text.now width) (page at room.old) }
{
    let text_end = program_visible::put_visible(room, at, text);
    let gap_end = program_output::put_spaces(room, text_end, cabbook_cells::spare(text, width));
    program_output::put_spaces(room, gap_end, 1)
}

// Adds a number at the right of a column of so many characters.
pub fn put_right(room: &mut [u8], at: usize, n: usize, width: usize) -> usize
    ensures { page result room.new ≡ added (at_right n width) (page at room.old) }
{
    let mut digits = [0u8; DIGITS];
    let k = program_output::digits::decimal(n, &mut digits);
    let text = &digits[..k];
    let gap_end = put_gap(room, at, text.len(), width);
    program_output::put_all(room, gap_end, text)
}
