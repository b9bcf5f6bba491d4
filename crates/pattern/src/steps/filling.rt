// Adding steps, and reading them.
ghost use Rattle.std.specs.Prelude.{◌≡◌, ◌<◌, [], ◌∷◌, ◌++◌, length};
ghost use Rattle.pattern.specs.Listed.{listed};

use super::Steps;
use step::interaction::{Hierarchy, Interaction, Kind};
use step::text::Text;

impl Steps {
    // What stands in the places that hold no step yet.
    pub(crate) fn blank() -> Interaction {
        Interaction::marker(Hierarchy::Atomic, Kind::Protocol, Text::u8(), Text::u8())
    }

    pub(crate) fn new() -> Steps
        ensures { listed result ≡ [] }
    {
        Steps {
            at: [Steps::blank(); 64],
            len: 0,
        }
    }

    pub(crate) fn push(&mut self, step: Interaction)
        requires { length (listed self.old) < 64 }
        ensures { listed self.new ≡ listed self.old ++ step ∷ [] }
    {
        self.at[self.len] = step;
        self.len += 1;
    }

    pub(crate) fn as_slice(&self) -> &[Interaction]
        ensures { result.now ≡ listed self.now }
    {
        &self.at[..self.len]
    }
}
