// Writing the count of a bounded message.
ghost use Rattle.std.specs.Prelude.{◌≡◌, ◌≤◌, if◌then◌else◌, Ok, Err, nat_le};
ghost use Rattle.error.specs.declared.TranscriptError.TheVariants.{CountOverMax};
ghost use Rattle.length_prefix.specs.Prefix.{width as width_of, encoded};

use error::TranscriptError;
use length_prefix::{bound_byte_width, encode_len_be};

// A count of at most `max` in the first of eight bytes, and how many of them it takes: the array is the encoding's own answer,
// which a buffer that knows its length would only pack again.
pub fn bounded_prefix(count: usize, max: usize) -> Result<([u8; 8], usize), TranscriptError>
    ensures { result ≡ (if nat_le count max then Ok (encoded count (width_of max), width_of max) else Err CountOverMax) }
{
    if count > max {
        return Err(TranscriptError::CountOverMax);
    }
    let width = bound_byte_width(max);
    let (prefix, _) = encode_len_be(count, width);
    Ok((prefix, width))
}
