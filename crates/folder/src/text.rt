// Folding the logical lines of a text: those that stay as they are, are copied in runs, and the others are folded anew.
ghost use Rattle.std.specs.Prelude.{◌≡◌, true, false, ◌+◌, ◌-◌, ◌*◌, ◌≤◌, length, [], ◌∷◌, ◌++◌, map, take, drop};
ghost use Rattle.numbers.specs.Limits as limit;
ghost use Rattle.octets.specs.Room.{filled, fill_bounded, overlay, written as answered};
ghost use Rattle.line_folds.specs.Folds.{unfolded};
ghost use Rattle.line_folds.specs.Logical.{logical_lines};
ghost use Rattle.folder_line.specs.Pieces.{folded, folded_lines, Clean, All};
ghost use Rattle.folder_raising.specs.Walk.{raised, written};
ghost use Rattle.folder.specs.Fitting.{Fitted, Poured};

use folder_raising::Style;
use numbers::limit;
use numbers::refusal::{Reason, Refusal};

// Raises the names of the line that stands in the first n octets of d.
fn raise_start(d: &mut [u8], n: usize)
    requires { n ≤ length d.old }
    ensures { d.new ≡ raised (take n d.old) ++ drop n d.old }
{
    folder_raising::raise(&mut d[..n]);
}

// Writes a line without folds in a style, folded, to the start of d where it has room for it, and answers how many octets that are.
fn put_line(style: Style, s: &[u8], d: &mut [u8]) -> usize
    requires { Clean s.now × (length s.now ≤ limit.octets) }
    ensures { Fitted (folded (written style s.now)) d.old d.new result × (result ≤ 4 * length s.now + 2) }
{
    let n = folder_line::cutting::measure(s);
    if d.len() < n {
        return n;
    }
    folder_line::folding::fold_line(s, d);
    match style {
        Style::AsRead => n,
        Style::Raised => {
            raise_start(d, n);
            n
        }
    }
}

// Does the same with a line that has folds, which is unfolded into a scratch that holds it.
fn put_unfolded(style: Style, s: &[u8], scratch: &mut [u8], d: &mut [u8]) -> usize
    requires { Clean (unfolded s.now) × (length s.now ≤ limit.octets) × (length s.now ≤ length scratch.old) }
    ensures { Fitted (folded (written style (unfolded s.now))) d.old d.new result × (result ≤ 4 * length s.now + 2) }
{
    let n = line_unfolding::unfold(s, scratch);
    put_line(style, &scratch[..n], d)
}

// A line of at most so many octets is unfolded into a scratch of as many, since the scratch is made for each line with folds.
const SHORT: usize = 1024;

// Does the same with any logical line.
fn put_logical(style: Style, s: &[u8], folds: bool, d: &mut [u8]) -> usize
    requires clean { Clean (unfolded s.now) × (length s.now ≤ limit.octets) }
    requires s_value { folds ≡ false → unfolded s.now ≡ s.now }
    ensures { Fitted (folded (written style (unfolded s.now))) d.old d.new result × (result ≤ 4 * length s.now + 2) }
{
    if !folds {
        return put_line(style, s, d);
    }
    if s.len() <= SHORT {
        let mut scratch = [0u8; SHORT];
        return put_unfolded(style, s, &mut scratch, d);
    }
    let mut scratch = [0u8; limit::OCTETS];
    put_unfolded(style, s, &mut scratch, d)
}

// Copies a run of lines to the start of d and writes the logical line s behind it, where d has room for both, and answers how many octets that are.
fn put_behind(style: Style, run: &[u8], s: &[u8], folds: bool, d: &mut [u8]) -> usize
    requires clean { Clean (unfolded s.now) × (length s.now ≤ limit.octets) × (length run.now ≤ limit.octets) }
    requires s_value { folds ≡ false → unfolded s.now ≡ s.now }
    ensures { Fitted (run.now ++ folded (written style (unfolded s.now))) d.old d.new result }
{
    let k = run.len();
    if d.len() < k {
        return k;
    }
    octets::copying::copy_in(d, run);
    let n = put_logical(style, s, folds, &mut d[k..]);
    k + n
}

// True only where the names of a line stay as they are in a style.
fn keeps_names(style: Style, s: &[u8]) -> bool
    ensures { result ≡ true → written style s.now ≡ s.now }
{
    match style {
        Style::AsRead => true,
        Style::Raised => folder_raising::is_raised(s),
    }
}

// True only where the logical line s, its folds with it, is its own folded form.
fn stands(s: &[u8], folds: bool) -> bool
    requires clean { Clean (unfolded s.now) }
    requires s_value { folds ≡ false → unfolded s.now ≡ s.now }
    ensures { result ≡ true → folded (unfolded s.now) ≡ s.now ++ (13 ∷ 10 ∷ []) }
{
    if folds {
        return folder_line::standing::stands_folded(s);
    }
    s.len() <= limit::FIRST_LINE
}

// True only where the logical line from `at` to `end` is written as it stands, with the CR LF behind it.
fn stays(style: Style, s: &[u8], at: usize, end: usize, folds: bool) -> bool
    requires at_le_end { (at ≤ end) × (end ≤ length s.now) × Clean (unfolded (take (end - at) (drop at s.now))) }
    requires s_value { folds ≡ false → unfolded (take (end - at) (drop at s.now)) ≡ take (end - at) (drop at s.now) }
    ensures { result ≡ true → (end + 2 ≤ length s.now) × (folded (written style (unfolded (take (end - at) (drop at s.now)))) ≡ take (end + 2 - at) (drop at s.now)) }
{
    let line = &s[at..end];
    s[end..].starts_with(b"\r\n") && stands(line, folds) && keeps_names(style, line)
}

// Copies the last run of lines to d from w on, where there is room for it: the octets then written in all, or 16.
fn put_run(run: &[u8], d: &mut [u8], w: usize) -> Result<usize, Refusal>
    requires { w ≤ length d.old }
    ensures { Poured (take w d.old ++ run.now) d.old d.new (answered result) }
{
    let n = run.len();
    if d.len() - w < n {
        return Err(Refusal(Reason::FormTooLong, limit::OCTETS));
    }
    octets::copying::copy_in(&mut d[w..], run);
    Ok(w + n)
}

// Writes the logical lines of a text in a style, each folded, to the start of d where it has room for them: the octets written, or 16. Lines that stay as
// they are, are copied together, from `from` on.
fn pour(style: Style, s: &[u8], d: &mut [u8]) -> Result<usize, Refusal>
    requires { All Clean (logical_lines s.now) × (length s.now ≤ limit.octets) }
    ensures { Poured (folded_lines (map (written style) (logical_lines s.now))) d.old d.new (answered result) }
{
    let mut from: usize = 0;
    let mut at: usize = 0;
    let mut w: usize = 0;
    while at < s.len() {
        let span = line_folds::spans::line_at(s, at);
        let end = span.end;
        let folds = span.cr != end;
        let same = stays(style, s, at, end, folds);
        if same {
            at = end + 2;
        } else {
            let n = put_behind(style, &s[from..at], &s[at..end], folds, &mut d[w..]);
            if d.len() - w < n {
                return Err(Refusal(Reason::FormTooLong, limit::OCTETS));
            }
            w += n;
            at = end + 2;
            from = at;
        }
    }
    put_run(octets::slices::part(s, from, at), d, w)
}

// Folds a text in a style by a buffer of its own, which holds all that may be written: 16, 15, else the octets written.
fn fold_buffered(style: Style, s: &[u8], out: &mut [u8]) -> Result<usize, Refusal>
    requires { All Clean (logical_lines s.now) × (length s.now ≤ limit.octets) }
    ensures { filled (answered result) out.new ≡ fill_bounded (folded_lines (map (written style) (logical_lines s.now))) out.old }
{
    let mut buffer = [0u8; limit::OCTETS];
    let n = pour(style, s, &mut buffer)?;
    if out.len() < n {
        return Err(Refusal(Reason::Room, n));
    }
    octets::copying::copy_in(out, &buffer[..n]);
    Ok(n)
}

// True only where the folded form of n octets surely has room: a line folded has at most four octets for each of its own, and two.
fn is_roomy(n: usize, room: usize) -> bool
    requires { n ≤ limit.octets }
    ensures { result ≡ true → (4 * n + 2 ≤ room) × (4 * n + 2 ≤ limit.octets) }
{
    let most = 4 * n + 2;
    most <= limit::OCTETS && most <= room
}

// Folds a text in a style: 16 where the folded form is over 16,384 octets, 15 where out is too small for it, else the octets written. It is written at
// once where it surely has room.
pub fn fold_text(style: Style, s: &[u8], out: &mut [u8]) -> Result<usize, Refusal>
    requires { All Clean (logical_lines s.now) × (length s.now ≤ limit.octets) }
    ensures { filled (answered result) out.new ≡ fill_bounded (folded_lines (map (written style) (logical_lines s.now))) out.old }
{
    if is_roomy(s.len(), out.len()) {
        return pour(style, s, out);
    }
    fold_buffered(style, s, out)
}
