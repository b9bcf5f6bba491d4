// One message: its prefix and its payload, written and taken in by a prover, or read and taken in by a verifier.
#![tactic(auto)]

pub mod length;
pub mod prefix;
pub mod put;
pub mod steps;
pub mod take;
