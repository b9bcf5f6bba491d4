// A script's text cut into lines and words, and the words that stand for numbers and bytes.
#![tactic(auto)]

pub mod hex;
pub mod lines;
pub mod numbers;
pub mod words;
