// How a unit takes in a field value, by the value's wire bytes: it may pack them otherwise than a byte string.
ghost use Rattle.std.specs.Prelude.{◌≡◌, ℕ, List};
ghost use Rattle.challenger.specs.Sponge.{absorbed};
ghost use Rattle.challenger.specs.Unitary.{Unitary};
ghost use Rattle.std.proofs.Common.{rules};

use crate::can_observe::{CanObserve, observe_slice};
use crate::unit::Unit;

pub trait ScalarUnit: Unit {
    ghost scalars: { List ℕ → List Self.Item };

    fn observe_scalar<C: CanObserve<Self::Item>>(challenger: &mut C, wire: &[u8])
        ensures { C.CanObserve.means challenger.new ≡ absorbed C.CanObserve.sponge (scalars wire.now) (C.CanObserve.means challenger.old) };

    ghost unitary: { Unitary scalars };
}

impl ScalarUnit for u8 {
    ghost scalars = { λ bs. bs };

    ghost unitary = { Prim.search rules };

    fn observe_scalar<C: CanObserve<u8>>(challenger: &mut C, wire: &[u8]) {
        observe_slice(challenger, wire);
    }
}
