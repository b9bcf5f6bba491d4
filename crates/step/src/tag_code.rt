// Which form a type tag has.
ghost use Rattle.std.specs.Prelude.{◌≡◌};
ghost use Rattle.step.specs.TagCodes.{tag_code};

use error::TranscriptError;

#[derive(Clone, Copy, PartialEq, Eq)]
pub enum TagCode {
    // A structural marker, which carries no value.
    Marker,
    // Raw bytes.
    Bytes,
    // Coefficients over a prime field.
    Algebra,
}

// The code of a plain number, as it comes from outside.
impl TryFrom<u8> for TagCode {
    type Error = TranscriptError;

    ghost try_from_gives = { λ n answer. answer ≡ tag_code n };

    fn try_from(code: u8) -> Result<TagCode, TranscriptError> {
        match code {
            0 => Ok(TagCode::Marker),
            1 => Ok(TagCode::Bytes),
            2 => Ok(TagCode::Algebra),
            _ => Err(TranscriptError::InvalidField),
        }
    }
}
