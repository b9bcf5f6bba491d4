// Encoding and decoding undo each other, for every codec: proved from its meaning alone.
ghost use Rattle.std.specs.Prelude.{◌≡◌, ◌<◌, ◌≤◌, true, false, length, MatchResult};
ghost use Rattle.error.specs.declared.TranscriptError.TheVariants.{ShortBuffer};

use crate::codec::Codec;
use challenger::unit::Unit;
use error::TranscriptError;

// The value that is read again after it was written at the start of `out`: it stands for the same.
pub fn reread<U: Unit, T: Drop, K: Codec<U, T>>(
    value: &T,
    out: &mut [u8],
) -> Result<T, TranscriptError>
    ensures { MatchResult result (λ v. (K.Codec.coding.wire.wide ≤ length out.old) × (K.Codec.stands v ≡ K.Codec.stands value.now)) (λ e. (length out.old < K.Codec.coding.wire.wide) × (e ≡ ShortBuffer)) }
{
    let end = K::encode(value, out, 0)?;
    Ok(K::decode(&out[0..end]).unwrap())
}
