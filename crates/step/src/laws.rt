// What holds of the derived `==`, on a contract.
ghost use Rattle.step.specs.Laws.{EqualitiesTell};

// Two hierarchies, kinds, lengths, tag codes, texts, tags or steps are equal by `==` exactly where they are one; at texts and tags it is the test field by field.
pub fn equalities_tell() -> u8
    ensures { EqualitiesTell }
{
    0
}
