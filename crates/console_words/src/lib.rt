// The words of a line, split by single spaces, and where a line ends.
#![tactic(auto)]

ghost use Rattle.std.specs.Prelude.{◌≡◌, ◌==◌, ◌+◌, ◌≤◌, length, position};
ghost use Rattle.console_words.specs.Words.{next_of, words_of, word_at, without_cr};

// The place of the first such octet.
fn place(s: &[u8], octet: u8) -> Option<usize>
    ensures { result ≡ position (λ x. x == octet) s.now }
{
    s.iter().position(|x| *x == octet)
}

// The place of the first such octet from a place on, or the length where there is none; a place past the length is its own answer.
pub fn next(s: &[u8], octet: u8, from: usize) -> usize
    ensures value { result ≡ next_of octet s.now from }
    ensures upper_bound { from ≤ length s.now → result ≤ length s.now }
{
    if s.len() < from {
        return from;
    }
    let rest = &s[from..];
    from + place(rest, octet).unwrap_or(rest.len())
}

// How many spaces a line has: as many as it has words after the first.
pub fn spaces(line: &[u8]) -> usize
    ensures { length (words_of line.now) ≡ result + 1 }
{
    line.iter().filter(|x| **x == b' ').count()
}

// Word k of a line, from 0 on, or nothing where there are not so many.
pub fn word(line: &[u8], k: usize) -> &[u8]
    ensures { result.now ≡ word_at line.now k }
{
    line.split(|x| *x == b' ').nth(k).unwrap_or(&[])
}

// The line without a CR at its end.
pub fn without_cr(line: &[u8]) -> &[u8]
    ensures { result.now ≡ without_cr line.now }
{
    line.strip_suffix(b"\r").unwrap_or(line)
}
