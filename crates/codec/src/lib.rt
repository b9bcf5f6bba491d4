// What a field and a codec mean.
#![tactic(auto)]

pub mod bound;
pub mod codec;
pub mod round_trip;
pub mod transcript_field;
