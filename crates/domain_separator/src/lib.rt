// What a transcript is bound to before its first step: the protocol's identifier and the seed made from it.
#![tactic(auto)]

pub mod identifier;
pub mod laws;
pub mod seed;
pub mod separator;
