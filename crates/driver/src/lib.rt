// What both ends drive: a player that follows the pattern, and a challenger; and the calls that are the same for prover and verifier.
#![tactic(auto)]

pub mod driver;
