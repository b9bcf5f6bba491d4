// A sequence that is being recorded: its steps nest so far, and some scopes may still be open.
pub mod drafting;

ghost use Rattle.std.specs.Prelude.{◌≡◌, true, is_ok};
ghost use Rattle.pattern.specs.Listed.{listed};
ghost use Rattle.pattern.specs.Stack.{open_of};
ghost use Rattle.pattern.specs.Walk.{opens, openers};

use crate::scopes::Scopes;
use crate::steps::Steps;

#[derive(Clone, Copy)]
pub struct Draft {
    steps: Steps,
    scopes: Scopes,
    ghost nested: { is_ok (opens (listed steps)) ≡ true },
    ghost scoped: { openers (opens (listed steps)) ≡ open_of scopes },
}
