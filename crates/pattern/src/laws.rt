// The nesting rule: the patterns are exactly the sequences of at most 64 steps that nest.
ghost use Rattle.std.specs.Prelude.{◌≡◌, ◌≤◌, true, length, is_ok, None, Ok};
ghost use Rattle.pattern.specs.Nests.{Nests};
ghost use Rattle.pattern.specs.Patterns.{steps as steps_of, pattern_result};

use crate::sequence::InteractionPattern;
use error::TranscriptError;
use step::interaction::Interaction;

// The steps of every pattern nest; how many they are.
#[tactic(auto, using(crate::proofs::Sound::sound))]
pub fn patterns_nest(pattern: &InteractionPattern) -> usize
    ensures nest { Nests None (steps_of pattern.now) }
    ensures count { result ≡ length (steps_of pattern.now) }
    ensures few { result ≤ 64 }
{
    pattern.len()
}

// Steps make a pattern, of just these steps, exactly when they nest and are at most 64.
#[tactic(auto, using(crate::proofs::Sound::sound, crate::proofs::Sound::at_most, crate::proofs::Complete::complete))]
pub fn nested_steps_make_a_pattern(
    steps: &[Interaction],
) -> Result<InteractionPattern, TranscriptError>
    ensures complete { Nests None steps.now → length steps.now ≤ 64 → pattern_result result ≡ Ok steps.now }
    ensures sound { is_ok result ≡ true → Nests None steps.now × (length steps.now ≤ 64) }
{
    InteractionPattern::new(steps)
}
