// What the values of a step are, independent of any compiler's names for types.
pub mod methods;

ghost use Rattle.std.specs.Prelude.{◌≡◌, true, replicate};
ghost use Rattle.step.specs.TagCodes.{plain};

use crate::tag_code::TagCode;

// A record, and not the values of one case: its fields are public, and what a tag does not use is promised to be zero.
#[derive(Clone, Copy, PartialEq, Eq)]
pub struct TypeTag {
    pub code: TagCode,
    pub modulus: u64,
    pub degree: usize,
    // Keccak-256 of the bytes that identify the algebra's relations and ordered basis.
    pub basis: [u8; 32],
    ghost no_modulus: { plain code ≡ true → modulus ≡ 0 },
    ghost no_degree: { plain code ≡ true → degree ≡ 0 },
    ghost no_basis: { plain code ≡ true → basis ≡ replicate 32 0 },
}
