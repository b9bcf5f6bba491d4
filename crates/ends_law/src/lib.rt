// The law of prover and verifier over every past, of the definitions that the contracts of both ends name. The statements
// are not proved yet, so no contract names them.
#![tactic(auto)]

ghost use Rattle.ends_law.specs.Law.{StringsApart, Law, ProverLaw};

pub fn stands() -> u8 {
    0
}
