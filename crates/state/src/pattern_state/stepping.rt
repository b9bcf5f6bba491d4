// A recorder as a party that follows a pattern, which it makes.
ghost use Rattle.std.specs.Prelude.{[]};
ghost use Rattle.state.specs.Records.{record_of, asked};

use super::PatternState;
use error::TranscriptError;
use pattern::draft::Draft;
use player::interface::Pattern;
use step::interaction::Interaction;

impl Pattern for PatternState {
    ghost means = { record_of };

    ghost answers = { λ p s. asked (record_of p) s };

    ghost kept = { λ _. [] };

    fn interact(&mut self, interaction: Interaction) -> Result<(), TranscriptError> {
        if self.ended {
            return Err(TranscriptError::NotRecording);
        }
        let answer = self.draft.add(interaction);
        if let Err(refusal) = answer {
            self.ended = !matches!(refusal, TranscriptError::PatternFull);
        }
        answer
    }

    fn abort(&mut self) {
        self.draft = Draft::new();
        self.ended = true;
    }
}
