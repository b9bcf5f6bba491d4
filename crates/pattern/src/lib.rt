// Patterns of steps: what is checked, how, and what passed.
#![tactic(auto)]

pub mod candidate;
pub mod draft;
pub mod laws;
pub mod row;
pub mod scopes;
pub mod sequence;
pub mod steps;
