// The states that have to be finished: the recorder of a pattern, and the pledge that comes with it.
#![tactic(auto)]

pub mod pattern_state;
pub mod pledge;
