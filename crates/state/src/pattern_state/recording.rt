// Making, reading and ending a recorder.
ghost use Rattle.std.specs.Prelude.{◌≡◌, false, []};
ghost use Rattle.pattern.specs.Patterns.{pattern_result};
ghost use Rattle.player.specs.Taken.{aborted};
ghost use Rattle.state.specs.Records.{record_of, finished, Finishes};

use super::PatternState;
use crate::pledge::Pledge;
use error::TranscriptError;
use pattern::draft::Draft;
use pattern::sequence::InteractionPattern;
use player::interface::Pattern;
use step::interaction::Interaction;

impl PatternState {
    // An empty recorder, and the duty to finish it.
    pub fn new() -> (PatternState, Pledge)
        ensures { record_of result.0 ≡ record { steps = []; ended = false } }
    {
        (
            PatternState {
                draft: Draft::new(),
                ended: false,
            },
            Pledge::new(),
        )
    }

    // The steps so far.
    pub fn interactions(&self) -> &[Interaction]
        ensures { result.now ≡ (record_of self.now).steps }
    {
        self.draft.interactions()
    }

    pub fn is_finalized(&self) -> bool
        ensures { result ≡ (record_of self.now).ended }
    {
        self.ended
    }

    // The pattern of the steps. The recorder and the pledge are spent either way.
    pub fn finalize(self, pledge: Pledge) -> Result<InteractionPattern, TranscriptError>
        ensures value { pattern_result result ≡ finished (record_of self) }
        ensures refusals { Finishes (pattern_result result) }
    {
        pledge.take_back();
        if self.ended {
            return Err(TranscriptError::NotRecording);
        }
        self.draft.close()
    }

    // Gives the recording up. The recorder stays, ended and empty.
    pub fn abort(&mut self, pledge: Pledge)
        ensures { record_of self.new ≡ aborted [] }
    {
        pledge.take_back();
        Pattern::abort(self);
    }
}
