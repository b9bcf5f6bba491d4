// Witness that a value came out of a challenger.
ghost use Rattle.std.specs.Prelude.{◌≡◌};
ghost use Rattle.challenger.specs.Sponge.{drawn, turned};
ghost use Rattle.codec.specs.Bound.{inner};

use crate::codec::Codec;
use challenger::can_observe::CanObserve;
use challenger::unit::Unit;

// Opaque: sampling is the only way to one, so a function that takes one cannot be given a value of the caller's choice.
#[derive(Clone, Copy, Drop)]
pub struct TranscriptBound<T> {
    value: T,
}

impl<T> TranscriptBound<T> {
    // A fresh value from the challenger.
    pub fn sample<U: Unit, K: Codec<U, T>, C: CanObserve<U::Item>>(challenger: &mut C) -> Self
        ensures value { inner result ≡ K.Codec.uncoded (K.Codec.coding.wire.sampled (drawn C.CanObserve.sponge K.Codec.coding.wire.draws (C.CanObserve.means challenger.old))) }
        ensures after { C.CanObserve.means challenger.new ≡ turned C.CanObserve.sponge K.Codec.coding.wire.draws (C.CanObserve.means challenger.old) }
    {
        TranscriptBound {
            value: K::sample(challenger),
        }
    }

    // Borrow the value without giving up the witness.
    pub fn as_inner(&self) -> &T
        ensures { result.now ≡ inner self.now }
    {
        &self.value
    }

    // The bare value, which is a witness no more.
    pub fn into_inner(self) -> T
        ensures { result ≡ inner self }
    {
        self.value
    }
}
