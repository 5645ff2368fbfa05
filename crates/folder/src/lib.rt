// The folder: the logical lines of an input, folded, in either style and either edition.
#![tactic(auto)]

ghost use Rattle.std.specs.Prelude.{◌≡◌};
ghost use Rattle.octets.specs.Room.{filled, written};
ghost use Rattle.folder.specs.Outcome.{fold_in};
ghost use Rattle.folder_raising.specs.declared.Style.TheVariants.{Raised as raised_style};

pub mod text;

use folder_raising::Style;
use numbers::refusal::Refusal;
use property_table::Edition;

// Folds an input of an edition in a style: the refusals of the reader, then 16, 15, else the octets written; nothing is written on a refusal.
pub fn fold_styled(
    edition: Edition,
    style: Style,
    input: &[u8],
    out: &mut [u8],
) -> Result<usize, Refusal>
    ensures { filled (written result) out.new ≡ fold_in edition style input.now out.old }
{
    reader::judge_as(edition, input)?;
    text::fold_text(style, input, out)
}

// Folds an input of an edition with its names in capitals.
pub fn fold(edition: Edition, input: &[u8], out: &mut [u8]) -> Result<usize, Refusal>
    ensures { filled (written result) out.new ≡ fold_in edition raised_style input.now out.old }
{
    fold_styled(edition, Style::Raised, input, out)
}
