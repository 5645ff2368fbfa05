// The cells of a code point, searched in a table of ranges.
ghost use Rattle.std.specs.Prelude.{◌≡◌};
ghost use Rattle.octets.specs.Classes.{within};
ghost use Rattle.cabbook_cells.specs.Ranges.{ranges, cells_in};

use crate::unicode;

// The table as a value.
pub(crate) fn table() -> [usize; unicode::SIZE]
    ensures { result ≡ ranges }
{
    unicode::RANGES
}

// Whether a code point is from first to last.
fn is_within(first: usize, last: usize, code: usize) -> bool
    ensures { result ≡ within first last code }
{
    first <= code && code <= last
}

// The cells of a code point in the table; one where no range has it.
pub(crate) fn cells_in(t: &[usize], code: usize) -> usize
    ensures { result ≡ cells_in t.now code }
{
    let mut left = t;
    while let [first, last, cells, rest @ ..] = left {
        if is_within(*first, *last, code) {
            return *cells;
        }
        left = rest;
    }
    1
}
