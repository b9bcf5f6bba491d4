// Making type tags.
ghost use Rattle.std.specs.Prelude.{◌≡◌};
ghost use Rattle.step.specs.Tags.{of_code, marker, raw_bytes, algebra, unused, made_tag};

use super::TypeTag;
use crate::tag_code::TagCode;
use error::TranscriptError;

impl TypeTag {
    pub fn marker() -> TypeTag
        ensures { result ≡ marker }
    {
        TypeTag::of_code(TagCode::Marker)
    }

    pub fn bytes() -> TypeTag
        ensures { result ≡ raw_bytes }
    {
        TypeTag::of_code(TagCode::Bytes)
    }

    // A tag that says nothing but its code.
    fn of_code(code: TagCode) -> TypeTag
        ensures { result ≡ of_code code }
    {
        TypeTag {
            code,
            modulus: 0,
            degree: 0,
            basis: [0; 32],
        }
    }

    // `degree` coefficients over the prime field of order `modulus`; the three come apart, here and below, since a tag is what
    // they make together.
    pub fn algebra(modulus: u64, degree: usize, basis: [u8; 32]) -> TypeTag
        ensures { result ≡ algebra modulus degree basis }
    {
        TypeTag {
            code: TagCode::Algebra,
            modulus,
            degree,
            basis,
        }
    }

    // The tag of a plain code and its numbers: refused where the code is unknown, or what it does not use is not zero.
    pub fn from_parts(
        code: u8,
        modulus: u64,
        degree: usize,
        basis: [u8; 32],
    ) -> Result<TypeTag, TranscriptError>
        ensures { result ≡ made_tag code modulus degree basis }
    {
        match TagCode::try_from(code)? {
            TagCode::Algebra => Ok(TypeTag::algebra(modulus, degree, basis)),
            plain if is_unused(modulus, degree, &basis) => Ok(TypeTag::of_code(plain)),
            _ => Err(TranscriptError::InvalidField),
        }
    }
}

// Whether nothing is said that only an algebra says.
fn is_unused(modulus: u64, degree: usize, basis: &[u8; 32]) -> bool
    ensures { result ≡ unused modulus degree basis.now }
{
    modulus == 0 && degree == 0 && *basis == [0; 32]
}
