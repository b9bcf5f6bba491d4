// Alphabet of a sponge, together with the rule for absorbing a raw byte string into it.
ghost use Rattle.std.specs.Prelude.{◌≡◌, ℕ, List};
ghost use Rattle.challenger.specs.Sponge.{absorbed};
ghost use Rattle.challenger.specs.Unitary.{Unitary};
ghost use Rattle.std.proofs.Common.{rules};

use crate::can_observe::{CanObserve, observe_slice};

pub trait Unit {
    // What the sponge consumes, which fixes the challengers that may stand below.
    type Item;

    ghost items: { List ℕ → List Self.Item };

    fn observe_bytes<C: CanObserve<Self::Item>>(challenger: &mut C, bytes: &[u8])
        ensures { C.CanObserve.means challenger.new ≡ absorbed C.CanObserve.sponge (items bytes.now) (C.CanObserve.means challenger.old) };

    ghost unitary: { Unitary items };
}

// A byte sponge takes the string as it is.
impl Unit for u8 {
    type Item = u8;

    ghost items = { λ bs. bs };

    ghost unitary = { Prim.search rules };

    fn observe_bytes<C: CanObserve<u8>>(challenger: &mut C, bytes: &[u8]) {
        observe_slice(challenger, bytes);
    }
}
