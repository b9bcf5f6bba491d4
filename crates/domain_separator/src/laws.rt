// The laws of identifiers and seeds: each function's contract is one theorem.
ghost use Rattle.domain_separator.specs.Laws.{IdentifiersTell, SeedsTell};

pub fn identifiers_tell() -> u8
    ensures { IdentifiersTell }
{
    0
}

pub fn seeds_tell() -> u8
    ensures { SeedsTell }
{
    0
}
