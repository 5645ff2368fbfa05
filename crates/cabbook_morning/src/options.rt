// The numbers of `morning` that options set, and how wide the column of names has to be.
ghost use Rattle.std.specs.Prelude.{◌≡◌, ◌≤◌};
ghost use Rattle.cabbook_morning.specs.Options.{or_usual, narrowest_column, widest_column};

use cabbook_options::arguments;
use program_host::Host;

// The widest that the column of names gets.
const WIDEST: usize = 40;

// The narrowest that the column of names gets: that of its title.
const NARROWEST: usize = 4;

// The size of a chunk where no other is named.
pub(crate) const USUAL_CHUNK: usize = 512;

// The ticks of a round where no others are named.
pub(crate) const USUAL_TICK: usize = 1;

// The slots of the desk where no others are named.
pub(crate) const USUAL_SLOTS: usize = 40;

// An option's number, or the usual one where it is 0 or the option is not named.
pub(crate) fn or_usual(n: Option<usize>, usual: usize) -> usize
    ensures { result ≡ or_usual usual n }
{
    match n {
        None | Some(0) => usual,
        Some(n) => n,
    }
}

// How many cells argument i takes, up to the widest.
fn width_of(host: &Host, i: usize) -> usize {
    let mut path = program_host::buffer();
    let n = host.arg(i, &mut path);
    WIDEST - cabbook_cells::spare(&path[..n], WIDEST)
}

// How wide the column of names is: the most cells that a file's name takes from argument `first` on, between the narrowest and the widest.
pub(crate) fn widest(host: &Host, first: usize, dashes: Option<usize>, count: usize) -> usize
    ensures { (narrowest_column ≤ result) × (result ≤ widest_column) }
{
    let mut width: usize = NARROWEST;
    let mut i = first;
    while i < count {
        width = width.max(width_of(host, i).min(WIDEST));
        i = arguments::next_file(host, i + 1, dashes, count).unwrap_or(count);
    }
    width
}
