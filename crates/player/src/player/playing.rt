// Replaying a pattern step by step.
ghost use Rattle.std.specs.Prelude.{◌≡◌, false};
ghost use Rattle.pattern.specs.Patterns.{steps as steps_of};
ghost use Rattle.player.specs.Plays.{play_of, asked, peeked, advanced, halted, played_out};

use super::PatternPlayer;
use error::TranscriptError;
use pattern::sequence::InteractionPattern;
use step::interaction::Interaction;

impl PatternPlayer {
    pub fn new(pattern: InteractionPattern) -> PatternPlayer
        ensures { play_of result ≡ record { pattern = steps_of pattern; position = 0; ended = false } }
    {
        PatternPlayer {
            pattern,
            position: 0,
            ended: false,
        }
    }

    // Whether this step may be played now. A step that may not ends the player, unless it has ended before; one that may is not yet played.
    pub fn expect(&mut self, interaction: &Interaction) -> Result<(), TranscriptError>
        ensures answer { result ≡ asked (play_of self.old) interaction.now }
        ensures after { play_of self.new ≡ peeked (play_of self.old) result }
    {
        if self.ended {
            return Err(TranscriptError::Ended);
        }
        let Some(next) = self.pattern.interactions().get(self.position) else {
            self.ended = true;
            return Err(TranscriptError::NoStepLeft);
        };
        if next.is_alike(interaction) {
            return Ok(());
        }
        self.ended = true;
        Err(TranscriptError::StepMismatch)
    }

    // Counts the expected step as played.
    pub fn advance(&mut self)
        ensures { play_of self.new ≡ advanced (play_of self.old) }
    {
        if self.position < self.pattern.len() {
            self.position += 1;
        }
    }

    // Confirms that every step has been played. Ends the player in every case.
    pub fn finalize(&mut self) -> Result<(), TranscriptError>
        ensures answer { result ≡ played_out (play_of self.old) }
        ensures after { play_of self.new ≡ halted (play_of self.old) }
    {
        if self.ended {
            return Err(TranscriptError::Ended);
        }
        self.ended = true;
        if self.position < self.pattern.len() {
            return Err(TranscriptError::StepsLeft);
        }
        Ok(())
    }
}
