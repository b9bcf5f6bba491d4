// Walks a recorded sequence and matches each request against the next expected step.
pub mod playing;
pub mod reading;
pub mod stepping;

ghost use Rattle.std.specs.Prelude.{◌≤◌, length};
ghost use Rattle.pattern.specs.Patterns.{steps as steps_of};

use pattern::sequence::InteractionPattern;

#[derive(Clone, Copy)]
pub struct PatternPlayer {
    pattern: InteractionPattern,
    position: usize,
    // An ended player still tells its pattern and its position, so its end is a bit of its own.
    ended: bool,
    ghost within: { position ≤ length (steps_of pattern) },
}
