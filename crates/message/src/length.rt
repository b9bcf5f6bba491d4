// Reading the count of a bounded message.
ghost use Rattle.std.specs.Prelude.{◌≡◌};
ghost use Rattle.message.specs.Lengths.{bounded_len};

use error::TranscriptError;
use length_prefix::{bound_byte_width, decode_len_be};

// The count that stands at `place`, and the width of its prefix; or the number that the refusal is known by outside. Plain
// numbers in all of it: this form was asked for.
pub fn read_bounded_len(narg: &[u8], place: usize, max: usize) -> Result<(usize, usize), u8>
    ensures { result ≡ bounded_len narg.now place max }
{
    let width = bound_byte_width(max);
    let Some(rest) = narg.get(place..) else {
        return Err(TranscriptError::ShortProof.number());
    };
    match decode_len_be(rest, width) {
        Ok(count) if count <= max => Ok((count, width)),
        Ok(_) => Err(TranscriptError::ReadOverMax.number()),
        Err(_) => Err(TranscriptError::ShortProof.number()),
    }
}
