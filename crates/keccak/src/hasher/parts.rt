// The methods of the hasher: begin, take in bytes, and answer the digest.
ghost use Rattle.std.specs.Prelude.{◌≡◌, ℕ, List, [], ◌∷◌, ◌++◌};
ghost use Rattle.keccak.specs.Sponge.{keccak_256};
ghost use Rattle.keccak.specs.Hasher.{view, fresh, absorb_into, digest_of, HasAbsorbed};

use super::Keccak256;
use crate::sponge::{FIRST_PADDING_BYTE, absorb_block, absorb_blocks, close, last_block};

impl Keccak256 {
    pub fn new() -> Self
        ensures view { view result ≡ fresh }
        ensures absorbed { HasAbsorbed result [] }
    {
        Keccak256 {
            state: [0; 25],
            block: [0; 136],
            filled: 0,
        }
    }

    pub fn absorb_byte(&mut self, byte: u8)
        ensures view { view self.new ≡ absorb_into (view self.old) (byte ∷ []) }
        ensures absorbed { (m : List ℕ) → HasAbsorbed self.old m → HasAbsorbed self.new (m ++ byte ∷ []) }
    {
        self.block[self.filled] = byte;
        if self.filled < 135 {
            self.filled += 1;
            return;
        }
        absorb_block(&mut self.state, &self.block);
        self.filled = 0;
    }

    pub fn absorb(&mut self, bytes: &[u8])
        ensures view { view self.new ≡ absorb_into (view self.old) bytes.now }
        ensures absorbed { (m : List ℕ) → HasAbsorbed self.old m → HasAbsorbed self.new (m ++ bytes.now) }
    {
        let room = 136 - self.filled;
        let Some((first, others)) = bytes.split_at_checked(room) else {
            self.block[self.filled..self.filled + bytes.len()].copy_from_slice(bytes);
            self.filled += bytes.len();
            return;
        };
        self.block[self.filled..136].copy_from_slice(first);
        absorb_block(&mut self.state, &self.block);
        let rest = absorb_blocks(&mut self.state, others);
        self.block[0..rest.len()].copy_from_slice(rest);
        self.filled = rest.len();
    }

    pub fn digest(self) -> [u8; 32]
        ensures view { result ≡ digest_of (view self) }
        ensures hash { (m : List ℕ) → HasAbsorbed self m → result ≡ keccak_256 m }
    {
        let mut state = self.state;
        close(
            &mut state,
            &last_block(FIRST_PADDING_BYTE, &self.block[0..self.filled]),
        )
    }
}
