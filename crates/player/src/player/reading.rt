// What a player holds.
ghost use Rattle.std.specs.Prelude.{◌≡◌, ◌-◌, length};
ghost use Rattle.player.specs.Plays.{play_of};

use super::PatternPlayer;
use pattern::sequence::InteractionPattern;

impl PatternPlayer {
    pub fn pattern(&self) -> &InteractionPattern
        ensures { result.now ≡ self.now.pattern }
    {
        &self.pattern
    }

    // How many steps have been played.
    pub fn position(&self) -> usize
        ensures { result ≡ (play_of self.now).position }
    {
        self.position
    }

    pub fn is_finalized(&self) -> bool
        ensures { result ≡ (play_of self.now).ended }
    {
        self.ended
    }

    // How many steps are left.
    pub fn remaining(&self) -> usize
        ensures { result ≡ length (play_of self.now).pattern - (play_of self.now).position }
    {
        self.pattern.len() - self.position
    }
}
