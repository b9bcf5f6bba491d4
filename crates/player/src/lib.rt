// The interface of what records and what replays a pattern, and the player.
#![tactic(auto)]

pub mod interface;
pub mod player;
