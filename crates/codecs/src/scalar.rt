// What the codecs share: numbers below a modulus, to and from wire bytes and drawn bytes.
ghost use Rattle.std.specs.Prelude.{◌≡◌, ◌%◌, ◌≤◌, length};
ghost use Rattle.challenger.specs.Sponge.{drawn, turned};
ghost use Rattle.codec.specs.Coding.{filled_with, filled_to};
ghost use Rattle.codecs.specs.Scalars.{canonical_number};
ghost use Rattle.digits.specs.Digits.{number, number_le, little_endian};

use crate::fields::PrimeField;
use crate::sample_size::SampleSize;
use challenger::can_observe::CanObserve;
use error::TranscriptError;

// What a codec answers for bytes that are no value.
pub(crate) const NOT_CANONICAL: u8 = 1;

// Writes `n` in the field's little-endian bytes after the filled part.
pub(crate) fn encode_le<F: PrimeField>(
    n: u64,
    out: &mut [u8],
    filled: usize,
) -> Result<usize, TranscriptError>
    ensures value { result ≡ filled_to out.old filled F.PrimeField.wide }
    ensures bytes { out.new ≡ filled_with out.old filled (little_endian F.PrimeField.wide n) }
{
    let wide = F::wire_len();
    if wide > out.len() || filled > out.len() - wide {
        return Err(TranscriptError::ShortBuffer);
    }
    let bytes = n.to_le_bytes();
    out[filled..filled + wide].copy_from_slice(&bytes[0..wide]);
    Ok(filled + wide)
}

// The number that at most eight little-endian bytes write. An array of another size than the units', in three lines: a function for both would need a `requires`, or a refusal that never comes, on a public name.
fn read_le(bytes: &[u8]) -> u64
    requires { length bytes.now ≤ 8 }
    ensures { result ≡ number_le bytes.now }
{
    let mut padded = [0u8; 8];
    padded[0..bytes.len()].copy_from_slice(bytes);
    u64::from_le_bytes(padded)
}

// The number below the field's modulus that exactly its little-endian bytes write.
pub(crate) fn decode_le<F: PrimeField>(bytes: &[u8]) -> Option<u64>
    ensures { result ≡ canonical_number F.PrimeField.wide F.Field.modulus bytes.now }
{
    if bytes.len() != F::wire_len() {
        return None;
    }
    let n = read_le(bytes);
    if n < F::modulus() { Some(n) } else { None }
}

// The remainder by the field's modulus of the number that a sample's drawn bytes write, the first the highest.
pub(crate) fn sample_be<F: PrimeField, S: SampleSize, I, C: CanObserve<I>>(
    challenger: &mut C,
) -> u64
    ensures value { result ≡ number (drawn C.CanObserve.sponge S.SampleSize.draws (C.CanObserve.means challenger.old)) % F.Field.modulus }
    ensures after { C.CanObserve.means challenger.new ≡ turned C.CanObserve.sponge S.SampleSize.draws (C.CanObserve.means challenger.old) }
{
    let modulus = F::modulus();
    let mut n: u64 = 0;
    for _ in 0..S::draws() {
        let b = challenger.draw();
        n = ((n as u128 * 256 + b as u128) % modulus as u128) as u64;
    }
    n
}
