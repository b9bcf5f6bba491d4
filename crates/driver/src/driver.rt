// A player and a challenger.
pub mod calls;

use player::player::PatternPlayer;
use std::marker::PhantomData;

// An end holds one, privately: its own calls are the only way to it.
#[derive(Drop)]
pub struct Driver<C, U> {
    pub player: PatternPlayer,
    pub challenger: C,
    // The sponge's alphabet.
    unit: PhantomData<U>,
}
