// The two styles in which a line is written, and raising the names of a line to capitals in the room in which it was written.
#![tactic(auto)]

ghost use Rattle.std.specs.Prelude.{◌≡◌, true, ◌≤◌, length};
ghost use Rattle.folder_raising.specs.Letters.{upper};
ghost use Rattle.folder_raising.specs.Walk.{after, turned, raised, Kept};

// As read, or with the ASCII letters of group, property and parameter names as capitals.
#[derive(Clone, Copy, Debug, PartialEq, Eq)]
pub enum Style {
    AsRead,
    Raised,
}

// Where a line stands: in its group, its name or a parameter's name; in a parameter's values; between quote marks there; behind the colon.
#[derive(Clone, Copy, Debug, PartialEq, Eq)]
pub enum Spot {
    Name,
    Values,
    Quotes,
    Past,
}

// A small ASCII letter as its capital, any other octet as it is.
fn capital(b: u8) -> u8
    ensures { result ≡ upper b }
{
    b.to_ascii_uppercase()
}

fn after_name(b: u8) -> Spot
    ensures { result ≡ after Spot.Name b }
{
    match b {
        b':' => Spot::Past,
        b'=' => Spot::Values,
        _ => Spot::Name,
    }
}

fn after_value(b: u8) -> Spot
    ensures { result ≡ after Spot.Values b }
{
    match b {
        b'"' => Spot::Quotes,
        b';' => Spot::Name,
        b':' => Spot::Past,
        _ => Spot::Values,
    }
}

fn after_quoted(b: u8) -> Spot
    ensures { result ≡ after Spot.Quotes b }
{
    match b {
        b'"' => Spot::Values,
        _ => Spot::Quotes,
    }
}

// Where the line stands after an octet.
fn next(spot: Spot, b: u8) -> Spot
    ensures { result ≡ after spot b }
{
    match spot {
        Spot::Name => after_name(b),
        Spot::Values => after_value(b),
        Spot::Quotes => after_quoted(b),
        Spot::Past => Spot::Past,
    }
}

// What the octet becomes.
fn raise_octet(spot: Spot, b: u8) -> u8
    ensures { result ≡ turned spot b }
{
    match spot {
        Spot::Name => capital(b),
        Spot::Values | Spot::Quotes | Spot::Past => b,
    }
}

// Raises the names of a line, up to its colon; the line may have folds in it.
pub fn raise(d: &mut [u8])
    ensures { d.new ≡ raised d.old }
{
    let mut spot = Spot::Name;
    for x in d.iter_mut() {
        if spot == Spot::Past {
            return;
        }
        let b = *x;
        *x = raise_octet(spot, b);
        spot = next(spot, b);
    }
}

// The end of a parameter's values, which start at `from`: the semicolon or the colon behind them, or the end of the line.
fn pass_values(s: &[u8], from: usize) -> usize
    requires { from ≤ length s.now }
    ensures { (from ≤ result) × (result ≤ length s.now) × (Kept Spot.Name result s.now → Kept Spot.Values from s.now) }
{
    let mut quoted = false;
    for i in from..s.len() {
        let b = s[i];
        if b == b'"' {
            quoted = !quoted;
        } else if !quoted && (b == b';' || b == b':') {
            return i;
        }
    }
    s.len()
}

// True only where raising the names of a line leaves it as it is.
pub fn is_raised(s: &[u8]) -> bool
    ensures { result ≡ true → raised s.now ≡ s.now }
{
    let mut i: usize = 0;
    while i < s.len() {
        let b = s[i];
        if b'Z' < b {
            return false;
        }
        if b == b':' {
            return true;
        }
        if b == b'=' {
            i = pass_values(s, i + 1);
        } else {
            i += 1;
        }
    }
    true
}
