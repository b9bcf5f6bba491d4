// The challenger for 32-bit words.
ghost use Rattle.std.specs.Prelude.{refl};
ghost use Rattle.chains.specs.Chains.{word_chain};

use crate::chain::{Chain, ChainItem, WORD, link};

pub type WordChain = Chain<u32>;

impl ChainItem for u32 {
    ghost sponge = { word_chain };

    ghost draws = { λ s. (refl, refl) };

    fn link(self, state: &[u8; 32]) -> [u8; 32] {
        link(state, WORD, &self.to_be_bytes())
    }
}
