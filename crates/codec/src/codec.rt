// Stateless adapter between values and a challenger, and between values and the wire.
ghost use Rattle.std.specs.Prelude.{◌≡◌, ℕ, ◌↔◌, List};
ghost use Rattle.keccak.specs.Sponge.{keccak_256};
ghost use Rattle.step.specs.Tags.{algebra};
ghost use Rattle.step.specs.Texts.{content};
ghost use Rattle.codec.specs.Coding.{Coding, Value, Lawful, Limited, decoded, filled_with, filled_to};
ghost use Rattle.challenger.specs.Sponge.{absorbed, drawn, turned};

use crate::transcript_field::{Field, TranscriptField};
use challenger::can_observe::CanObserve;
use challenger::unit::Unit;
use error::TranscriptError;

pub trait Codec<U: Unit, T> {
    // The field that steps with this codec's values name.
    type Field: TranscriptField;

    ghost coding: { Coding U.Item };

    // The wire bytes of what a value stands for, and the value that wire bytes give back.
    ghost code: { T → List ℕ };

    ghost uncoded: { List ℕ → T };

    // Values are told apart by what they stand for.
    ghost Meaning: { Type 0 };

    ghost stands: { T → Meaning };

    // Bytes that one value occupies on the wire.
    fn wire_len() -> usize
        ensures { result ≡ coding.wire.wide };

    // Bits of statistical security that a sample declares.
    fn security_bits() -> u32
        ensures { result ≡ coding.wire.bits };

    // Absorb a value's items, in order.
    fn observe<C: CanObserve<U::Item>>(challenger: &mut C, value: &T)
        ensures { C.CanObserve.means challenger.new ≡ absorbed C.CanObserve.sponge (coding.items (code value.now)) (C.CanObserve.means challenger.old) };

    // A value of so many drawn bytes.
    fn sample<C: CanObserve<U::Item>>(challenger: &mut C) -> T
        ensures value { result ≡ uncoded (coding.wire.sampled (drawn C.CanObserve.sponge coding.wire.draws (C.CanObserve.means challenger.old))) }
        ensures after { C.CanObserve.means challenger.new ≡ turned C.CanObserve.sponge coding.wire.draws (C.CanObserve.means challenger.old) };

    // Writes the value after the filled part of `out`, and answers how far that is filled then. The buffer is lent at each
    // call, so that its filled part comes beside it.
    fn encode(value: &T, out: &mut [u8], filled: usize) -> Result<usize, TranscriptError>
        ensures value { result ≡ filled_to out.old filled coding.wire.wide }
        ensures bytes { out.new ≡ filled_with out.old filled (code value.now) };

    // The value of exactly these bytes, or the codec's fault: a number, since each codec says for itself what its faults are.
    fn decode(bytes: &[u8]) -> Result<T, u8>
        ensures { result ≡ decoded coding.wire uncoded bytes.now };

    ghost tagged: { coding.wire.tag ≡ algebra Self.Field.Field.modulus Self.Field.Field.dimension (keccak_256 (content Self.Field.Field.identity)) };

    ghost named: { coding.wire.name ≡ Self.Field.Field.name };

    ghost codes: { (v : T) → Value coding.wire (code v) };

    ghost reads: { (bs : List ℕ) → Value coding.wire bs → code (uncoded bs) ≡ bs };

    ghost same: { (v w : T) → (code v ≡ code w) ↔ (stands v ≡ stands w) };

    ghost lawful: { Lawful coding };

    ghost limited: { Limited coding.wire };
}
