// A challenger that hashes its state with each thing that happens to it.
ghost use Rattle.std.specs.Prelude.{◌≡◌, ℕ, List, [], replicate, slice_index};
ghost use Rattle.challenger.specs.Sponge.{Sponge};
ghost use Rattle.chains.specs.Linked.{linked};

use challenger::can_observe::CanObserve;
use keccak::Keccak256;
use std::marker::PhantomData;

// What a chain takes in, and how its state goes on.
pub trait ChainItem {
    ghost sponge: { Sponge (List ℕ) Self };

    // The state after this item.
    fn link(self, state: &[u8; 32]) -> [u8; 32]
        ensures { result ≡ sponge.takes state.now self };

    // A draw is the same whatever the items are.
    ghost draws: { (s : List ℕ) → (sponge.byte s ≡ slice_index (linked s 0x01 []) 0) × (sponge.turns s ≡ linked s 0x01 []) };
}

#[derive(Clone, Copy)]
pub struct Chain<I> {
    pub state: [u8; 32],
    pub item: PhantomData<I>,
}

impl<I> Chain<I> {
    pub fn new() -> Chain<I>
        ensures { result.state ≡ replicate 32 0 }
    {
        Chain {
            state: [0; 32],
            item: PhantomData,
        }
    }
}

impl<I: ChainItem> CanObserve<I> for Chain<I> {
    ghost State = { List ℕ };

    ghost means = { λ c. c.state };

    ghost sponge = { I.ChainItem.sponge };

    fn observe(&mut self, item: I) {
        self.state = item.link(&self.state);
    }

    fn draw(&mut self) -> u8 {
        self.state = link(&self.state, DRAW, &[]);
        self.state[0]
    }
}

// The separators, bytes that are hashed with the rest, keep apart what is taken in and what is drawn.
pub(crate) const BYTE: u8 = 0x00;

pub(crate) const DRAW: u8 = 0x01;

pub(crate) const WORD: u8 = 0x02;

// The state hashed with a separator and an item's bytes.
pub(crate) fn link(state: &[u8; 32], separator: u8, item: &[u8]) -> [u8; 32]
    ensures { result ≡ linked state.now separator item.now }
{
    let mut hasher = Keccak256::new();
    hasher.absorb(state);
    hasher.absorb_byte(separator);
    hasher.absorb(item);
    hasher.digest()
}
