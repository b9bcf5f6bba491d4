// The script language: a line as a command.
#![tactic(auto)]

pub mod command;
pub mod names;
pub mod parse;
