// What a challenger means, and the units: how a raw byte string enters the sponge behind a challenger.
#![tactic(auto)]

pub mod can_observe;
pub mod scalar_unit;
pub mod unit;
pub mod word_unit;
