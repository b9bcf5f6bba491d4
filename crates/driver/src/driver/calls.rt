// Making a driver, and the calls that prover and verifier share.
ghost use Rattle.std.specs.Prelude.{◌≡◌};
ghost use Rattle.codec.specs.Bound.{inner};
ghost use Rattle.domain_separator.specs.Domains.{domain_of};
ghost use Rattle.driver.specs.Cores.{core_of};
ghost use Rattle.ends.specs.Calls.Call.{begin as begins, end as ends};
ghost use Rattle.ends.specs.Shared.{seeded, stopped, marked, challenged};
ghost use Rattle.player.specs.Plays.{played_out};
ghost use Rattle.std.specs.Result.{result_map_both};

use super::Driver;
use challenger::can_observe::CanObserve;
use challenger::unit::Unit;
use codec::bound::TranscriptBound;
use codec::codec::Codec;
use domain_separator::separator::DomainSeparator;
use error::TranscriptError;
use message::steps::codec_step;
use player::interface::Pattern;
use player::player::PatternPlayer;
use std::marker::PhantomData;
use step::interaction::{Hierarchy, Interaction, Kind, Length};
use step::text::Text;

// Bits of statistical security that a challenge has to have.
const CHALLENGE_BITS: u32 = 128;

impl<C: CanObserve<U::Item>, U: Unit> Driver<C, U> {
    // The challenger takes in the domain's seed first.
    pub fn new(challenger: C, domain: &DomainSeparator) -> Driver<C, U>
        ensures { core_of C.CanObserve.means result ≡ seeded C.CanObserve.sponge U.Unit.items (domain_of domain.now) (C.CanObserve.means challenger) }
    {
        let mut challenger = challenger;
        domain.seed::<U, C>(&mut challenger);
        Driver {
            player: PatternPlayer::new(*domain.pattern()),
            challenger,
            unit: PhantomData,
        }
    }

    // An opener and a closer are two calls for whoever drives this, so they are two here: one line each. The player is asked
    // itself, and not by the interface's begin and end: its own promise says where it stands afterwards.
    pub fn begin(&mut self, kind: Kind, label: Text, type_name: Text) -> Result<(), TranscriptError>
        ensures answer { result ≡ (marked (begins kind label type_name) (core_of C.CanObserve.means self.old)).answer }
        ensures after { core_of C.CanObserve.means self.new ≡ (marked (begins kind label type_name) (core_of C.CanObserve.means self.old)).left }
    {
        self.player.interact(Interaction::marker(Hierarchy::Begin, kind, label, type_name))
    }

    pub fn end(&mut self, kind: Kind, label: Text, type_name: Text) -> Result<(), TranscriptError>
        ensures answer { result ≡ (marked (ends kind label type_name) (core_of C.CanObserve.means self.old)).answer }
        ensures after { core_of C.CanObserve.means self.new ≡ (marked (ends kind label type_name) (core_of C.CanObserve.means self.old)).left }
    {
        self.player.interact(Interaction::marker(Hierarchy::End, kind, label, type_name))
    }

    // A codec that declares too few bits is refused before the pattern is looked at.
    pub fn challenge_scalar<T, K: Codec<U, T>>(
        &mut self,
        label: Text,
    ) -> Result<TranscriptBound<T>, TranscriptError>
        ensures answer { result_map_both inner (λ e. e) result ≡ result_map_both K.Codec.uncoded (λ e. e) (challenged C.CanObserve.sponge label K.Codec.coding.wire (core_of C.CanObserve.means self.old)).answer }
        ensures after { core_of C.CanObserve.means self.new ≡ (challenged C.CanObserve.sponge label K.Codec.coding.wire (core_of C.CanObserve.means self.old)).left }
    {
        if K::security_bits() < CHALLENGE_BITS {
            return Err(TranscriptError::WeakCodec);
        }
        self.player.interact(codec_step::<U, T, K>(Kind::Challenge, label, Length::Scalar))?;
        Ok(TranscriptBound::sample::<U, K, C>(&mut self.challenger))
    }

    pub fn abort(&mut self)
        ensures { core_of C.CanObserve.means self.new ≡ stopped (core_of C.CanObserve.means self.old) }
    {
        Pattern::abort(&mut self.player);
    }

    // Whether it is live and every step has been played; it has ended then.
    pub fn finalize(&mut self) -> Result<(), TranscriptError>
        ensures answer { result ≡ played_out (core_of C.CanObserve.means self.old).play }
        ensures after { core_of C.CanObserve.means self.new ≡ stopped (core_of C.CanObserve.means self.old) }
    {
        self.player.finalize()
    }
}
