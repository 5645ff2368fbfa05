// The program's arguments: what they say, and which of them name files.
ghost use Rattle.std.specs.Prelude.{◌≤◌, ◌<◌, IfSome};

use crate::names::Named;
use crate::words::Words;
use crate::{names, words};
use octets::cases::same_name;
use program_host::Host;

// What the arguments say, but for the program's own name.
pub fn read(host: &Host, count: usize) -> Words {
    let mut w = words::begin();
    for i in 1..count {
        let mut word = program_host::buffer();
        let n = host.arg(i, &mut word);
        w = words::take(w, i, &word[..n]);
    }
    w
}

// Whether argument i is an option that has its number in the next argument.
fn takes_next(host: &Host, i: usize) -> bool {
    let mut word = program_host::buffer();
    let n = host.arg(i, &mut word);
    match names::find(&word[..n]) {
        Some(Named::AnOption(switch)) => switch.most().is_some(),
        _ => false,
    }
}

// Whether argument i, behind the command's name, names a file, where options end at that argument, if they end: it is no option, and no number of one.
fn names_file(host: &Host, i: usize, dashes: Option<usize>) -> bool {
    if dashes.is_some_and(|end| end < i) {
        return true;
    }
    let mut word = program_host::buffer();
    let n = host.arg(i, &mut word);
    if words::is_option(&word[..n]) {
        return false;
    }
    if i == 0 {
        return false;
    }
    !takes_next(host, i - 1)
}

// The first argument from a place on that names a file, where options end at that argument, if they end.
pub fn next_file(host: &Host, from: usize, dashes: Option<usize>, count: usize) -> Option<usize>
    ensures { IfSome result (λ i. (from ≤ i) × (i < count)) }
{
    for i in from..count {
        if names_file(host, i, dashes) {
            return Some(i);
        }
    }
    None
}

// The first argument that names a file.
pub fn first_file(host: &Host, w: Words, count: usize) -> Option<usize>
    ensures { IfSome result (λ i. i < count) }
{
    if w.named_by >= count {
        return None;
    }
    next_file(host, w.named_by + 1, w.dashes, count)
}

// Whether argument i is `-`, standard input.
fn is_input(host: &Host, i: usize) -> bool {
    let mut word = program_host::buffer();
    let n = host.arg(i, &mut word);
    same_name(&word[..n], b"-")
}

// Whether two of the files are standard input.
pub fn names_input_twice(host: &Host, w: Words, count: usize) -> bool {
    let mut seen = false;
    let mut next = first_file(host, w, count);
    while let Some(i) = next {
        if is_input(host, i) {
            if seen {
                return true;
            }
            seen = true;
        }
        next = next_file(host, i + 1, w.dashes, count);
    }
    false
}
