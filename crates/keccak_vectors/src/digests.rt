// What a message hashes to, as a whole and in parts.
ghost use Rattle.std.specs.Prelude.{◌≡◌, Some, None, ◌==◌, if◌then◌else◌};
ghost use Rattle.keccak.specs.Sponge.{keccak_256, sponge_256};

use crate::parts::keccak256_in_parts;
use keccak::{keccak256, sponge256};

const ORIGINAL_PADDING: u8 = 0x01;

#[derive(Clone, Copy)]
pub(crate) struct Digests {
    pub(crate) whole: [u8; 32],
    // With the original padding alone.
    pub(crate) in_parts: Option<[u8; 32]>,
}

impl Digests {
    pub(crate) fn of(padding: u8, message: &[u8]) -> Digests
        ensures whole { result.whole ≡ sponge_256 padding message.now }
        ensures in_parts { result.in_parts ≡ (if padding == 1 then Some (keccak_256 message.now) else None) }
    {
        if padding == ORIGINAL_PADDING {
            Digests {
                whole: keccak256(message),
                in_parts: Some(keccak256_in_parts(message)),
            }
        } else {
            Digests {
                whole: sponge256(padding, message),
                in_parts: None,
            }
        }
    }
}
