// What holds of the derived `==`, on a contract.
ghost use Rattle.error.specs.Laws.{EqualityTells};

// Two refusals are equal by `==` exactly where they are one, with all that they carry.
pub fn equality_tells() -> u8
    ensures { EqualityTells }
{
    0
}
