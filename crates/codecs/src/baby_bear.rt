// The codec of BabyBear values: plain 32-bit numbers, which stand for their remainders.
use crate::field_codec::FieldCodec;
use crate::fields::BabyBear;
use crate::sample_size::Full;

pub type BabyBearCodec = FieldCodec<BabyBear, Full>;
