// A validated sequence of typed transcript steps.
pub mod validator;

ghost use Rattle.std.specs.Prelude.{◌≡◌, true, is_ok};
ghost use Rattle.pattern.specs.Listed.{listed};
ghost use Rattle.pattern.specs.Walk.{checked};

use crate::steps::Steps;

// That the steps nest is part of the type.
#[derive(Clone, Copy)]
pub struct InteractionPattern {
    steps: Steps,
    ghost nested: { is_ok (checked (listed steps)) ≡ true },
}
