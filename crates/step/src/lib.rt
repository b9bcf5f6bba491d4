// A step of a pattern, and what it is made of: texts, type tags, kinds and lengths.
#![tactic(auto)]

pub mod interaction;
mod laws;
pub mod tag_code;
pub mod text;
pub mod type_tag;

pub use laws::equalities_tell;
