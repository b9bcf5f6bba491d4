// The codecs of Goldilocks values: plain 64-bit numbers, which stand for their remainders.
use crate::field_codec::FieldCodec;
use crate::fields::Goldilocks;
pub use crate::sample_size::{Full, SampleSize, Short};

pub type GoldilocksSampled<S> = FieldCodec<Goldilocks, S>;

pub type GoldilocksCodec = GoldilocksSampled<Full>;

pub type GoldilocksShortCodec = GoldilocksSampled<Short>;
