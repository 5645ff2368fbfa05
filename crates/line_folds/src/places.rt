// Where an octet of an unfolded line stands in the line as it came.
ghost use Rattle.std.specs.Prelude.{◌≡◌, ◌≤◌, length};
ghost use Rattle.line_folds.specs.Places.{place_of};

use crate::spans::{FOLD_LENGTH, fold_at};

// The place of octet o of the line s without its folds; the end of s where it has no such octet.
pub fn place_of(s: &[u8], o: usize) -> usize
    ensures value { result ≡ place_of s.now o }
    ensures upper_bound { result ≤ length s.now }
{
    let mut at: usize = 0;
    let mut left = o;
    while at < s.len() {
        let fold = fold_at(s, at);
        if fold {
            at += FOLD_LENGTH;
        } else {
            if left == 0 {
                return at;
            }
            left -= 1;
            at += 1;
        }
    }
    s.len()
}
