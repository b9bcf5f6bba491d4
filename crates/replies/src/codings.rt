// What the fields and codecs of a script's names do. No unit has a part in it, so each codec is taken over bytes. A codec is a type, so each function matches on the name.
ghost use Rattle.std.specs.Prelude.{◌≡◌, IfOk};
ghost use Rattle.replies.specs.Answers.{response_of};
ghost use Rattle.replies.specs.Codings.{code_of, decoded_by, wire_of, tag_of, name_of};
ghost use Rattle.replies.specs.Replies.{tagged};

use crate::answer::Answer;
use codec::codec::Codec;
use codec::transcript_field::{Field, TranscriptField};
use codecs::baby_bear::BabyBearCodec;
use codecs::goldilocks::{GoldilocksCodec, GoldilocksShortCodec};
use codecs::{BabyBear, Goldilocks};
use script::command::{CodecName, FieldName, Value};
use std::alloc::{AllocError, Global};

// The wire bytes of a value.
pub(crate) fn encode(heap: Global, value: Value) -> Result<Vec<u8>, AllocError>
    ensures { IfOk result (λ v. v.items ≡ code_of value) }
{
    match value {
        Value::BabyBear(n) => encode_by::<u32, BabyBearCodec>(heap, &n),
        Value::Goldilocks(n) => encode_by::<u64, GoldilocksCodec>(heap, &n),
        Value::GoldilocksShort(n) => encode_by::<u64, GoldilocksShortCodec>(heap, &n),
    }
}

fn encode_by<T, K: Codec<u8, T>>(heap: Global, value: &T) -> Result<Vec<u8>, AllocError>
    ensures { IfOk result (λ v. v.items ≡ K.Codec.code value.now) }
{
    let mut wire = vec![in heap; 0u8; K::wire_len()]?;
    // There is room, so it is not refused.
    K::encode(value, wire.as_mut_slice(), 0).unwrap();
    Ok(wire)
}

// The number that wire bytes give back, or the codec's fault.
pub(crate) fn decode(codec: CodecName, bytes: &[u8]) -> Result<u64, u8>
    ensures { result ≡ decoded_by codec bytes.now }
{
    match codec {
        CodecName::BabyBear => <BabyBearCodec as Codec<u8, u32>>::decode(bytes).map(u64::from),
        CodecName::Goldilocks => <GoldilocksCodec as Codec<u8, u64>>::decode(bytes),
        CodecName::GoldilocksShort => <GoldilocksShortCodec as Codec<u8, u64>>::decode(bytes),
    }
}

pub(crate) fn security_bits(codec: CodecName) -> u32
    ensures { result ≡ (wire_of codec).bits }
{
    match codec {
        CodecName::BabyBear => <BabyBearCodec as Codec<u8, u32>>::security_bits(),
        CodecName::Goldilocks => <GoldilocksCodec as Codec<u8, u64>>::security_bits(),
        CodecName::GoldilocksShort => <GoldilocksShortCodec as Codec<u8, u64>>::security_bits(),
    }
}

// The tag of a field, with its type name.
pub(crate) fn tag(field: FieldName) -> Answer
    ensures { response_of result ≡ tagged (tag_of field) (name_of field) }
{
    match field {
        FieldName::BabyBear => Answer::Algebra(BabyBear::algebra_tag(), BabyBear::type_name()),
        FieldName::Goldilocks => Answer::Algebra(
            Goldilocks::algebra_tag(),
            Goldilocks::type_name(),
        ),
    }
}
