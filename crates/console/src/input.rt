// What was read of the input and not yet taken, in a buffer, and its lines.
ghost use Rattle.std.specs.Prelude.{◌≡◌};
ghost use Rattle.console.specs.Input.{begun, past, is_within_line, line_of};

// The next line starts at from, and what was read ends at to; long tells that the line did not fit the buffer and lost octets.
#[derive(Clone, Copy)]
pub struct Input {
    pub from: usize,
    pub to: usize,
    pub long: bool,
    pub ended: bool,
}

// Where a line lies, without its LF, and where the next one starts; found tells that there is a line, and last that none comes after it.
#[derive(Clone, Copy)]
pub struct Line {
    pub from: usize,
    pub to: usize,
    pub next: usize,
    pub found: bool,
    pub last: bool,
}

impl Input {
    // Before the first line.
    pub fn new() -> Input
        ensures { result ≡ begun }
    {
        Input {
            from: 0,
            to: 0,
            long: false,
            ended: false,
        }
    }

    // After a line: the next one starts at from.
    pub fn past(self, from: usize) -> Input
        ensures { result ≡ past self from }
    {
        Input {
            from: from,
            to: self.to,
            long: false,
            ended: self.ended,
        }
    }

    // Whether the input ended within a line.
    fn is_within_line(self) -> bool
        ensures { result ≡ is_within_line self }
    {
        if !self.ended {
            return false;
        }
        if self.long {
            return true;
        }
        self.from < self.to
    }
}

// The line that starts where the last one ended; at the end of the input one without LF too.
pub fn line_of(buffer: &[u8], i: Input) -> Line
    ensures { result ≡ line_of buffer.now i }
{
    let end = console_words::next(octets::slices::part(buffer, 0, i.to), b'\n', i.from);
    if end < i.to {
        return Line {
            from: i.from,
            to: end,
            next: end + 1,
            found: true,
            last: false,
        };
    }
    Line {
        from: i.from,
        to: i.to,
        next: i.to,
        found: i.is_within_line(),
        last: i.ended,
    }
}
