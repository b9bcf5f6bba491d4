// Keccak-256 of a byte string, at once or in parts, with Keccak's original padding.
#![tactic(auto)]

mod hasher;
mod laws;
mod sponge;

pub use hasher::Keccak256;
pub use keccak_f::keccak_f;
pub use laws::{digests_are_32_bytes, known_answers_hold, parts_make_the_whole};
pub use sponge::{keccak256, sponge256};
