// Bytes and scalars written to a buffer and taken in.
ghost use Rattle.std.specs.Prelude.{◌≡◌, ◌+◌, ◌*◌, ◌≤◌, ◌++◌, map, length, nat_le};
ghost use Rattle.challenger.specs.Sponge.{absorbed};
ghost use Rattle.message.specs.Payloads.{wrote, putting, taken_in};
ghost use Rattle.std.specs.List.{flat_map};

use challenger::can_observe::CanObserve;
use challenger::unit::Unit;
use codec::codec::Codec;
use error::TranscriptError;

// Whether a buffer of `len` bytes has room for a prefix and so many values after its filled part.
fn has_room(len: usize, filled: usize, prefix: usize, count: usize, wide: usize) -> bool
    ensures { result ≡ nat_le (filled + (prefix + count * wide)) len }
{
    filled as u128 + (prefix as u128 + count as u128 * wide as u128) <= len as u128
}

// Writes bytes where there is room for them.
fn write(out: &mut [u8], at: usize, bytes: &[u8])
    requires { at + length bytes.now ≤ length out.old }
    ensures { out.new ≡ wrote out.old at bytes.now }
{
    out[at..at + bytes.len()].copy_from_slice(bytes);
}

// A prefix and bytes after the filled part of `out`; it answers how far that is filled then. The two pass through the unit apart.
// What is lent at each call comes side by side, here and below: a struct of it would live for one call.
pub fn put_bytes<U: Unit, C: CanObserve<U::Item>>(
    challenger: &mut C,
    prefix: &[u8],
    bytes: &[u8],
    out: &mut [u8],
    filled: usize,
) -> Result<usize, TranscriptError>
    ensures { record { answer = result; buffer = out.new; state = C.CanObserve.means challenger.new } ≡ putting (prefix.now ++ bytes.now) out.old filled (C.CanObserve.means challenger.old) (absorbed C.CanObserve.sponge (U.Unit.items bytes.now) (absorbed C.CanObserve.sponge (U.Unit.items prefix.now) (C.CanObserve.means challenger.old))) }
{
    if !has_room(out.len(), filled, prefix.len(), bytes.len(), 1) {
        return Err(TranscriptError::ShortBuffer);
    }
    U::observe_bytes(challenger, prefix);
    U::observe_bytes(challenger, bytes);
    write(out, filled, prefix);
    write(out, filled + prefix.len(), bytes);
    Ok(filled + prefix.len() + bytes.len())
}

// Values from `at` on, each taken in.
fn write_values<U: Unit, T, K: Codec<U, T>, C: CanObserve<U::Item>>(
    challenger: &mut C,
    values: &[T],
    out: &mut [u8],
    start: usize,
)
    requires { start + length values.now * K.Codec.coding.wire.wide ≤ length out.old }
    ensures buffer { out.new ≡ wrote out.old start (flat_map K.Codec.code values.now) }
    ensures state { C.CanObserve.means challenger.new ≡ absorbed C.CanObserve.sponge (flat_map (λ v. K.Codec.coding.items (K.Codec.code v)) values.now) (C.CanObserve.means challenger.old) }
{
    let mut at = start;
    for value in values {
        K::observe(challenger, value);
        at = K::encode(value, out, at).unwrap();
    }
}

// A prefix and values after the filled part of `out`; it answers how far that is filled then.
pub fn put_values<U: Unit, T, K: Codec<U, T>, C: CanObserve<U::Item>>(
    challenger: &mut C,
    prefix: &[u8],
    values: &[T],
    out: &mut [u8],
    filled: usize,
) -> Result<usize, TranscriptError>
    ensures { record { answer = result; buffer = out.new; state = C.CanObserve.means challenger.new } ≡ putting (prefix.now ++ flat_map K.Codec.code values.now) out.old filled (C.CanObserve.means challenger.old) (taken_in C.CanObserve.sponge U.Unit.items K.Codec.coding prefix.now (map K.Codec.code values.now) (C.CanObserve.means challenger.old)) }
{
    let wide = K::wire_len();
    if !has_room(out.len(), filled, prefix.len(), values.len(), wide) {
        return Err(TranscriptError::ShortBuffer);
    }
    U::observe_bytes(challenger, prefix);
    write(out, filled, prefix);
    write_values::<U, T, K, C>(challenger, values, out, filled + prefix.len());
    Ok(filled + prefix.len() + values.len() * wide)
}
