// Two challengers that hash their state with each thing that happens to them: the byte chain and the word chain.
#![tactic(auto)]

pub mod byte_chain;
pub mod chain;
pub mod word_chain;
