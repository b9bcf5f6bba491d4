// Two prime fields, named by their ASCII names. Each states its own numbers and the type of its values.
ghost use Rattle.std.specs.Prelude.{◌≡◌, ℕ, ◌%◌, ◌^◌, ◌<◌, ◌≤◌, true, refl};
ghost use Rattle.std.proofs.Common.{lit≤, lit<};
ghost use Rattle.codecs.specs.Fields.{baby_bear, goldilocks};
ghost use Rattle.step.specs.Printable.{is_text};
ghost use Rattle.step.specs.Texts.{content};

use codec::transcript_field::{Field, TranscriptField};
use step::text::Text;

// A field of prime order whose values are plain numbers, which stand for their remainders.
pub trait PrimeField: TranscriptField {
    type Value;

    // How many bytes hold a remainder.
    ghost wide: { ℕ };

    ghost number: { Self.Value → ℕ };

    ghost value_of: { ℕ → Self.Value };

    fn wire_len() -> usize
        ensures { result ≡ wide };

    fn to_u64(value: &Self::Value) -> u64
        ensures { result ≡ number value.now };

    // The value of a number's remainder.
    fn from_u64(n: u64) -> Self::Value
        ensures { result ≡ value_of (n % Self.Field.modulus) };

    ghost numbers: { (n : ℕ) → number (value_of n) ≡ n };

    ghost fits: { Self.Field.modulus ≤ 256 ^ wide };

    ghost narrow: { wide ≤ 8 };

    ghost nonzero: { 0 < Self.Field.modulus };

    ghost one: { Self.Field.dimension ≡ 1 };

    ghost named: { Self.Field.identity ≡ Self.Field.name };
}

// The text of bytes that are one.
fn text(bytes: &[u8]) -> Text
    requires { is_text bytes.now ≡ true }
    ensures { content result ≡ bytes.now }
{
    Text::new(bytes).unwrap()
}

// 2^31 - 2^27 + 1
#[derive(Clone, Copy)]
pub struct BabyBear {}

impl Field for BabyBear {
    ghost modulus = { 2013265921 };

    ghost dimension = { 1 };

    ghost identity = { baby_bear };

    ghost name = { baby_bear };

    fn modulus() -> u64 {
        2013265921
    }

    fn dimension() -> usize {
        1
    }

    fn identity() -> Text {
        text(b"BabyBear")
    }

    fn type_name() -> Text {
        BabyBear::identity()
    }
}

impl TranscriptField for BabyBear {}

impl PrimeField for BabyBear {
    type Value = u32;

    ghost wide = { 4 };

    ghost number = { λ n. n };

    ghost value_of = { λ n. n };

    ghost numbers = { λ n. refl };

    ghost fits = { lit≤ tt };

    ghost narrow = { lit≤ tt };

    ghost nonzero = { lit< tt };

    ghost one = { refl };

    ghost named = { refl };

    fn wire_len() -> usize {
        4
    }

    fn to_u64(value: &u32) -> u64 {
        u64::from(*value)
    }

    fn from_u64(n: u64) -> u32 {
        (n % BabyBear::modulus()) as u32
    }
}

// 2^64 - 2^32 + 1
#[derive(Clone, Copy)]
pub struct Goldilocks {}

impl Field for Goldilocks {
    ghost modulus = { 18446744069414584321 };

    ghost dimension = { 1 };

    ghost identity = { goldilocks };

    ghost name = { goldilocks };

    fn modulus() -> u64 {
        18446744069414584321
    }

    fn dimension() -> usize {
        1
    }

    fn identity() -> Text {
        text(b"Goldilocks")
    }

    fn type_name() -> Text {
        Goldilocks::identity()
    }
}

impl TranscriptField for Goldilocks {}

impl PrimeField for Goldilocks {
    type Value = u64;

    ghost wide = { 8 };

    ghost number = { λ n. n };

    ghost value_of = { λ n. n };

    ghost numbers = { λ n. refl };

    ghost fits = { lit≤ tt };

    ghost narrow = { lit≤ tt };

    ghost nonzero = { lit< tt };

    ghost one = { refl };

    ghost named = { refl };

    fn wire_len() -> usize {
        8
    }

    fn to_u64(value: &u64) -> u64 {
        *value
    }

    fn from_u64(n: u64) -> u64 {
        n % Goldilocks::modulus()
    }
}
