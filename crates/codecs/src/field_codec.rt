// The codec of a prime field's values.
ghost use Rattle.std.specs.Prelude.{◌≡◌, ℕ, ◌%◌, refl};
ghost use Rattle.codecs.specs.Scalars.{scalar, scalar_wire, remainder_bytes};
ghost use Rattle.digits.specs.Digits.{number_le};
ghost use Rattle.std.proofs.Common.{sym, ap, ap₂, ◌∙◌, lit≤, le_trans};
ghost use Rattle.keccak.specs.Sponge.{keccak_256};
ghost use Rattle.step.specs.Tags.{algebra};
ghost use Rattle.step.specs.Texts.{content};
ghost use Rattle.codecs.specs.ScalarsLemmas as Scalars;
ghost use Rattle.codecs.specs.ScalarsLemmas.{same_remainder};

use crate::fields::PrimeField;
use crate::sample_size::SampleSize;
use crate::scalar::{NOT_CANONICAL, decode_le, encode_le, sample_be};
use challenger::can_observe::CanObserve;
use challenger::scalar_unit::ScalarUnit;
use challenger::unit::Unit;
use codec::codec::Codec;
use error::TranscriptError;
use std::marker::PhantomData;

#[derive(Clone, Copy)]
pub struct FieldCodec<F, S> {
    pub field: PhantomData<F>,
    pub size: PhantomData<S>,
}

// What a value stands for.
fn remainder<F: PrimeField>(value: &F::Value) -> u64
    ensures { result ≡ F.PrimeField.number value.now % F.Field.modulus }
{
    F::to_u64(value) % F::modulus()
}

impl<U: ScalarUnit, F: PrimeField, S: SampleSize> Codec<U, F::Value> for FieldCodec<F, S> {
    type Field = F;

    ghost coding = { scalar U.ScalarUnit.scalars (scalar_wire F.Field.name F.Field.modulus F.PrimeField.wide S.SampleSize.draws S.SampleSize.bits) };

    ghost code = { λ v. remainder_bytes F.PrimeField.wide F.Field.modulus (F.PrimeField.number v) };

    ghost uncoded = { λ bs. F.PrimeField.value_of (number_le bs) };

    ghost Meaning = { ℕ };

    ghost stands = { λ v. F.PrimeField.number v % F.Field.modulus };

    ghost tagged = { ap₂ (λ d i. algebra F.Field.modulus d (keccak_256 (content i))) (sym F.PrimeField.one) (sym F.PrimeField.named) };

    ghost named = { refl };

    ghost codes = { λ v. Scalars.codes F.PrimeField.wide F.Field.modulus F.PrimeField.nonzero F.PrimeField.fits F.Field.name S.SampleSize.draws S.SampleSize.bits (F.PrimeField.number v) };

    ghost reads = { λ bs v. ap (remainder_bytes F.PrimeField.wide F.Field.modulus) (F.PrimeField.numbers (number_le bs)) ∙ Scalars.reads F.PrimeField.wide F.Field.modulus F.PrimeField.nonzero F.PrimeField.fits F.Field.name S.SampleSize.draws S.SampleSize.bits bs v };

    ghost same = { λ v w. same_remainder F.PrimeField.wide F.Field.modulus F.PrimeField.nonzero F.PrimeField.fits (F.PrimeField.number v) (F.PrimeField.number w) };

    ghost lawful = { Scalars.lawful F.PrimeField.wide F.Field.modulus F.PrimeField.nonzero F.PrimeField.fits F.Field.name S.SampleSize.draws S.SampleSize.bits U.ScalarUnit.scalars U.ScalarUnit.unitary };

    ghost limited = { Scalars.limited F.PrimeField.wide F.Field.modulus F.PrimeField.nonzero F.PrimeField.fits F.Field.name S.SampleSize.draws S.SampleSize.bits (le_trans F.PrimeField.narrow (lit≤ tt)) S.SampleSize.few };

    fn wire_len() -> usize {
        F::wire_len()
    }

    fn security_bits() -> u32 {
        S::bits()
    }

    fn observe<C: CanObserve<U::Item>>(challenger: &mut C, value: &F::Value) {
        let bytes = remainder::<F>(value).to_le_bytes();
        U::observe_scalar(challenger, &bytes[0..F::wire_len()]);
    }

    fn sample<C: CanObserve<U::Item>>(challenger: &mut C) -> F::Value {
        F::from_u64(sample_be::<F, S, _, _>(challenger))
    }

    fn encode(value: &F::Value, out: &mut [u8], filled: usize) -> Result<usize, TranscriptError> {
        encode_le::<F>(remainder::<F>(value), out, filled)
    }

    fn decode(bytes: &[u8]) -> Result<F::Value, u8> {
        let n = decode_le::<F>(bytes).ok_or(NOT_CANONICAL)?;
        Ok(F::from_u64(n))
    }
}
