// Keccak-f[1600], the permutation under Keccak-256, and the laws of its tables and words.
#![tactic(auto)]

mod laws;
mod permutation;

pub use laws::{offsets_follow_the_walk, round_constants_follow_the_register, words_act_on_bits};
pub use permutation::keccak_f;
