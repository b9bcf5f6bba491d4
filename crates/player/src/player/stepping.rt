// A player as a party that follows a pattern.
ghost use Rattle.std.specs.Prelude.{◌≡◌};
ghost use Rattle.player.specs.Plays.{play_of, asked, moved, halted, taken};
ghost use Rattle.player.specs.Taken.{after, aborted};

use super::PatternPlayer;
use crate::interface::Pattern;
use error::TranscriptError;
use step::interaction::Interaction;

impl Pattern for PatternPlayer {
    ghost means = { λ p. taken (play_of p) };

    ghost answers = { λ p s. asked (play_of p) s };

    ghost kept = { λ p. (taken (play_of p)).steps };

    fn interact(&mut self, interaction: Interaction) -> Result<(), TranscriptError>
        ensures answer { result ≡ asked (play_of self.old) interaction }
        ensures after { taken (play_of self.new) ≡ after (taken (play_of self.old)) interaction result }
        ensures play { play_of self.new ≡ moved (play_of self.old) result }
    {
        self.expect(&interaction)?;
        self.advance();
        Ok(())
    }

    fn abort(&mut self)
        ensures after { taken (play_of self.new) ≡ aborted (taken (play_of self.old)).steps }
        ensures play { play_of self.new ≡ halted (play_of self.old) }
    {
        self.ended = true;
    }
}
