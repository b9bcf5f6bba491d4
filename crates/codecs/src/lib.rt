// The fields BabyBear and Goldilocks, and codecs for their values over every unit that takes field values in.
#![tactic(auto)]

pub mod baby_bear;
pub mod field_codec;
mod fields;
pub mod goldilocks;
pub mod sample_size;
mod scalar;

pub use fields::{BabyBear, Goldilocks, PrimeField};
