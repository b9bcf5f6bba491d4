// Recording a sequence step by step, and closing it.
ghost use Rattle.std.specs.Prelude.{◌≡◌, [], ◌∷◌, ◌++◌, length, is_ok, if◌then◌else◌};
ghost use Rattle.pattern.specs.Patterns.{drafted, pattern_result, Unclosed};
ghost use Rattle.pattern.specs.Walk.{added, checked};

use super::Draft;
use crate::scopes::Scopes;
use crate::sequence::InteractionPattern;
use crate::sequence::validator::nest;
use crate::steps::Steps;
use error::TranscriptError;
use step::interaction::Interaction;

impl Draft {
    #[tactic(auto, using(crate::proofs::Opening::runs_none))]
    pub fn new() -> Draft
        ensures { drafted result ≡ [] }
    {
        Draft {
            steps: Steps::new(),
            scopes: Scopes::new(),
        }
    }

    // One step more, where it nests and a place is free; else nothing changes.
    #[tactic(auto, using(crate::proofs::Drafting::answered, crate::proofs::Opening::opened, crate::proofs::Nesting::met_free))]
    pub fn add(&mut self, interaction: Interaction) -> Result<(), TranscriptError>
        ensures answer { result ≡ added (drafted self.old) interaction }
        ensures steps { drafted self.new ≡ (if is_ok result then drafted self.old ++ interaction ∷ [] else drafted self.old) }
    {
        let scopes = nest(self.steps.as_slice(), self.scopes, &interaction)?;
        self.steps.push(interaction);
        self.scopes = scopes;
        Ok(())
    }

    // The steps so far.
    pub fn interactions(&self) -> &[Interaction]
        ensures { result.now ≡ drafted self.now }
    {
        self.steps.as_slice()
    }

    // The pattern of these steps, where every scope is closed.
    #[tactic(auto, using(crate::proofs::Drafting::left_open, crate::proofs::Drafting::all_closed, crate::proofs::Opening::opened))]
    pub fn close(&self) -> Result<InteractionPattern, TranscriptError>
        ensures value { pattern_result result ≡ checked (drafted self.now) }
        ensures refusal { Unclosed (pattern_result result) }
    {
        if let Some(position) = self.scopes.last() {
            return Err(TranscriptError::MissingEnd { position });
        }
        Ok(InteractionPattern::of_steps(self.steps))
    }
}
