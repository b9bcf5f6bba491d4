// The answer of each command of a script, its text, and the reply to a line.
#![tactic(auto)]

pub mod answer;
mod codings;
mod items;
pub mod leaves;
pub mod respond;
mod write;
