// A look at each octet and the one before it, which settles most values with escapes.
ghost use Rattle.std.specs.Prelude.{◌≡◌};
ghost use Rattle.value_kinds.specs.ByPairs.{fits_by_pairs};

use numbers::kind;
use text_marks::pairs::all_settled;

// Whether a look at each octet and the one before it shows that s fits; it settles texts, lists of texts and components only.
pub fn fits_by_pairs(kind: usize, s: &[u8]) -> bool
    ensures { result ≡ fits_by_pairs kind s.now }
{
    match kind {
        kind::TEXT => all_settled(s, false),
        kind::TEXTS => all_settled(s, true),
        kind::ORGANIZATION => all_settled(s, false),
        _ => false,
    }
}
