// Whatever takes bytes and never refuses them, and the ways in which numbers and bytes are written into it.
#![tactic(auto)]

pub mod sink;
pub mod vec_sink;
pub mod write;
