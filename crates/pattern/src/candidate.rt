// What the validator can be given for a step. No `TryInto<Interaction>`: for a step itself the library's `TryFrom` has the error `Infallible`.
ghost use Rattle.std.specs.Prelude.{◌≡◌, Ok, Result};
ghost use Rattle.error.specs.declared.TranscriptError.{TranscriptError};
ghost use Rattle.step.specs.declared.interaction.Interaction.{Interaction};

use error::TranscriptError;
use step::interaction::Interaction;

pub trait Candidate {
    // The step that it is, or the refusal.
    ghost made: { Self → Result Interaction TranscriptError };

    fn step(&self) -> Result<Interaction, TranscriptError>
        ensures { result ≡ made self.now };
}

// A step is good by its type.
impl Candidate for Interaction {
    ghost made = { λ s. Ok s };

    fn step(&self) -> Result<Interaction, TranscriptError> {
        Ok(*self)
    }
}
