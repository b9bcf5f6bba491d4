// Scalars read from a string, stored and taken in.
ghost use Rattle.std.specs.Prelude.{◌≡◌, ◌*◌, ◌≤◌, length, if◌then◌else◌, Ok, Err};
ghost use Rattle.challenger.specs.Sponge.{absorbed};
ghost use Rattle.ends.specs.Verifier.{cut, good, all_good, bad_value};
ghost use Rattle.message.specs.Payloads.{stored_in, taking};
ghost use Rattle.std.specs.List.{flat_map};

use challenger::can_observe::CanObserve;
use challenger::unit::Unit;
use codec::codec::Codec;
use error::TranscriptError;

// Values from the front of `bytes` into the front of `out`, each taken in, up to the first that the codec does not take.
fn read_values<U: Unit, T: Drop, K: Codec<U, T>, C: CanObserve<U::Item>>(
    challenger: &mut C,
    bytes: &[u8],
    count: usize,
    out: &mut [T],
) -> Result<(), TranscriptError>
    requires long { count * K.Codec.coding.wire.wide ≤ length bytes.now }
    requires room { count ≤ length out.old }
    ensures { let all = cut count K.Codec.coding.wire.wide bytes.now in let read = good K.Codec.coding.wire all in record { answer : result ≡ (if all_good K.Codec.coding.wire all then Ok tt else Err (bad_value K.Codec.coding.wire all)); stored : out.new ≡ stored_in K.Codec.uncoded read out.old; state : C.CanObserve.means challenger.new ≡ absorbed C.CanObserve.sponge (flat_map K.Codec.coding.items read) (C.CanObserve.means challenger.old) } }
{
    let wide = K::wire_len();
    let mut rest = bytes;
    // `out` may be longer than `count`.
    for (index, place) in out[..count].iter_mut().enumerate() {
        let (here, behind) = rest.split_at(wide);
        let value = K::decode(here).map_err(|fault| TranscriptError::BadValue { index, fault })?;
        K::observe(challenger, &value);
        *place = value;
        rest = behind;
    }
    Ok(())
}

// So many values from the front of `bytes`, behind a prefix that is taken in before them.
pub fn take_values<U: Unit, T: Drop, K: Codec<U, T>, C: CanObserve<U::Item>>(
    challenger: &mut C,
    prefix: &[u8],
    bytes: &[u8],
    count: usize,
    out: &mut [T],
) -> Result<(), TranscriptError>
    ensures { let taken = taking C.CanObserve.sponge U.Unit.items K.Codec.coding prefix.now bytes.now count (length out.old) (C.CanObserve.means challenger.old) in record { answer : result ≡ taken.answer; stored : out.new ≡ stored_in K.Codec.uncoded taken.stored out.old; state : C.CanObserve.means challenger.new ≡ taken.left } }
{
    if count as u128 * K::wire_len() as u128 > bytes.len() as u128 {
        U::observe_bytes(challenger, prefix);
        return Err(TranscriptError::MissingValues);
    }
    if count > out.len() {
        return Err(TranscriptError::ShortValues);
    }
    U::observe_bytes(challenger, prefix);
    read_values::<U, T, K, C>(challenger, bytes, count, out)
}
