// Numbers that no refusal has.
ghost use Rattle.std.specs.Prelude.{◌≡◌, false};
ghost use Rattle.numbers.specs.Listed.{is_listed};

// A number that no refusal has.
#[derive(Clone, Copy, Debug, PartialEq, Eq)]
pub struct Unlisted {
    pub number: u32,
    ghost unlisted: { is_listed number ≡ false },
}
