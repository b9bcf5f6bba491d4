// The rendering of a list of steps as text, line by line, and its Keccak-256.
#![tactic(auto)]

pub mod laws;
mod line;
mod names;
pub mod rendering;
#[cfg(test)]
mod tests;
