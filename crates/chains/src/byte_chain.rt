// The challenger for bytes.
ghost use Rattle.std.specs.Prelude.{refl};
ghost use Rattle.chains.specs.Chains.{byte_chain};

use crate::chain::{BYTE, Chain, ChainItem, link};

pub type ByteChain = Chain<u8>;

impl ChainItem for u8 {
    ghost sponge = { byte_chain };

    ghost draws = { λ s. (refl, refl) };

    fn link(self, state: &[u8; 32]) -> [u8; 32] {
        link(state, BYTE, &[self])
    }
}
