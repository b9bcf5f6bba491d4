// The sponge over Keccak-f[1600] with blocks of 136 bytes and 32 bytes of result: Keccak-256 of a whole message.
ghost use Rattle.std.specs.Prelude.{◌≡◌, ◌-◌, ◌<◌, ◌++◌, length};
ghost use Rattle.keccak_f.specs.Permutation.{keccak_f};
ghost use Rattle.keccak.specs.Sponge.{mixed, padding, squeezed, sponge_256, keccak_256};
ghost use Rattle.keccak.specs.Blocks.{fed};

use keccak_f::keccak_f;
use std::array;

// The original first byte of the padding. SHA-3 has 0x06 here.
pub(crate) const FIRST_PADDING_BYTE: u8 = 0x01;

fn mix(state: &mut [u64; 25], block: &[u8; 136])
    ensures { state.new ≡ mixed state.old block.now }
{
    let (words, _) = block.as_chunks::<8>();
    // By index: once a zipped `iter_mut` is over, nothing is known of the lanes.
    for (i, word) in words.iter().enumerate() {
        state[i] ^= u64::from_le_bytes(*word);
    }
}

pub(crate) fn absorb_block(state: &mut [u64; 25], block: &[u8; 136])
    ensures { state.new ≡ keccak_f (mixed state.old block.now) }
{
    mix(state, block);
    keccak_f(state);
}

// Takes in the whole blocks of `bytes`, and returns the bytes after them.
pub(crate) fn absorb_blocks<'a>(state: &mut [u64; 25], bytes: &'a [u8]) -> &'a [u8]
    ensures state { state.new ≡ (fed state.old bytes.now).state }
    ensures rest { result.now ≡ (fed state.old bytes.now).begun }
    ensures short { length result.now < 136 }
{
    let (blocks, rest) = bytes.as_chunks::<136>();
    for block in blocks {
        absorb_block(state, block);
    }
    rest
}

// What ends a message: its bytes after the whole blocks, and the padding.
pub(crate) fn last_block(first: u8, rest: &[u8]) -> [u8; 136]
    requires { length rest.now < 136 }
    ensures { result ≡ rest.now ++ padding first (136 - length rest.now) }
{
    let mut block = [0; 136];
    block[..rest.len()].copy_from_slice(rest);
    block[rest.len()] = first;
    block[135] ^= 0x80;
    block
}

fn squeeze(state: &[u64; 25]) -> [u8; 32]
    ensures { result ≡ squeezed state.now }
{
    array::from_fn(|i| state[i / 8].to_le_bytes()[i % 8])
}

pub(crate) fn close(state: &mut [u64; 25], last: &[u8; 136]) -> [u8; 32]
    ensures { result ≡ squeezed (keccak_f (mixed state.old last.now)) }
{
    absorb_block(state, last);
    squeeze(state)
}

// The sponge with a first padding byte of the caller's choice: 0x01 is Keccak-256, and 0x06 is SHA3-256.
pub fn sponge256(first: u8, bytes: &[u8]) -> [u8; 32]
    ensures { result ≡ sponge_256 first bytes.now }
{
    let mut state = [0; 25];
    let rest = absorb_blocks(&mut state, bytes);
    close(&mut state, &last_block(first, rest))
}

pub fn keccak256(bytes: &[u8]) -> [u8; 32]
    ensures { result ≡ keccak_256 bytes.now }
{
    sponge256(FIRST_PADDING_BYTE, bytes)
}
