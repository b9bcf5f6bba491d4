// A hasher that takes in a message part by part: the state after the whole blocks, and the block that is begun.
ghost use Rattle.std.specs.Prelude.{◌<◌};

mod parts;

// Copied as a value, which an `ArrayVec` in place of the block and its length could not be.
#[derive(Clone, Copy)]
pub struct Keccak256 {
    state: [u64; 25],
    block: [u8; 136],
    filled: usize,
    ghost room: { filled < 136 },
}
