// Whether a logical line that has folds already stands as it would be folded anew.
ghost use Rattle.std.specs.Prelude.{◌≡◌, true, false, [], ◌∷◌, ◌++◌, ◌+◌, ◌<◌, length, drop, get_or};
ghost use Rattle.utf8.specs.Characters.{tail};
ghost use Rattle.line_folds.specs.Folds.{unfolded};
ghost use Rattle.folder_line.specs.Pieces.{folded, Clean};

use line_folds::spans::FOLD_LENGTH;
use numbers::limit;

// True only where CR LF and a space stand at i, and behind them a character starts that is no CR.
fn is_cut(s: &[u8], i: usize) -> bool
    requires { i < length s.now }
    ensures i_in_bounds { result ≡ true → (i + 3 < length s.now) × (drop i s.now ≡ 13 ∷ 10 ∷ 32 ∷ drop (i + 3) s.now) }
    ensures fact { result ≡ true → (get_or s.now (i + 3) 0 ≡ 13 → ⊥) × (tail (get_or s.now (i + 3) 0) ≡ false) }
{
    if s.len() - i <= FOLD_LENGTH {
        return false;
    }
    let next = s[i + FOLD_LENGTH];
    s[i..].starts_with(b"\r\n ") && next != b'\r' && !utf8::is_tail(next)
}

// True only where the line s, its folds with it, is the folded form of what it has without them: each physical line but the last is full.
pub fn stands_folded(s: &[u8]) -> bool
    requires { Clean (unfolded s.now) }
    ensures { result ≡ true → folded (unfolded s.now) ≡ s.now ++ (13 ∷ 10 ∷ []) }
{
    let mut i: usize = 0;
    let mut room: usize = limit::FIRST_LINE;
    while i < s.len() {
        let cr = line_folds::hops::next_cr(s, i);
        if cr == s.len() {
            return cr - i <= room;
        }
        if cr - i != room {
            return false;
        }
        if !is_cut(s, cr) {
            return false;
        }
        i = cr + FOLD_LENGTH;
        room = limit::LATER_LINE;
    }
    false
}
