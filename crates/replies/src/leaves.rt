// The answers of the commands that need no state.
ghost use Rattle.std.specs.Prelude.{◌≡◌, IfOk};
ghost use Rattle.script.specs.Language.{encode_len, decode_len};
ghost use Rattle.script.specs.Meaning.{query_of};
ghost use Rattle.replies.specs.Answers.{response_of};
ghost use Rattle.replies.specs.Replies.{answered, valued};

use crate::answer::Answer;
use crate::codings;
use crate::items::items;
use error::TranscriptError;
use keccak::keccak256;
use length_prefix::{bound_byte_width, decode_len_be, encode_len_be};
use script::command::Leaf;
use std::alloc::{AllocError, Global};

pub fn answer_leaf(heap: Global, leaf: Leaf<'_>) -> Result<Answer, AllocError>
    ensures { IfOk result (λ a. response_of a ≡ answered (query_of leaf.entry)) }
{
    match leaf {
        Leaf::Width(max) => Ok(Answer::Number(bound_byte_width(max as usize) as u64)),
        Leaf::EncodeLen(len, width) => encode_len(heap, len as usize, width as usize),
        Leaf::DecodeLen(hex, width) => {
            let bytes = hex.to_vec(heap)?;
            Ok(decode_len(bytes.as_slice(), width as usize))
        }
        Leaf::Keccak(hex) => {
            let bytes = hex.to_vec(heap)?;
            let digest = keccak256(bytes.as_slice());
            Ok(Answer::Bytes(Vec::from_slice(heap, &digest)?))
        }
        Leaf::Items(unit, hex) => {
            let bytes = hex.to_vec(heap)?;
            Ok(Answer::Numbers(items(heap, unit, bytes.as_slice())?))
        }
        Leaf::Encode(value) => Ok(Answer::Bytes(codings::encode(heap, value)?)),
        Leaf::Decode(codec, hex) => {
            let bytes = hex.to_vec(heap)?;
            Ok(value_or_fault(codings::decode(codec, bytes.as_slice())))
        }
        Leaf::Bits(codec) => Ok(Answer::Number(u64::from(codings::security_bits(codec)))),
        Leaf::Tag(field) => Ok(codings::tag(field)),
    }
}

fn encode_len(heap: Global, len: usize, width: usize) -> Result<Answer, AllocError>
    ensures { IfOk result (λ a. response_of a ≡ answered (encode_len len width)) }
{
    let (bytes, refused) = encode_len_be(len, width);
    let bytes = Vec::from_slice(heap, &bytes)?;
    if refused {
        Ok(Answer::RefusedBytes(TranscriptError::InvalidPrefix, bytes))
    } else {
        Ok(Answer::Bytes(bytes))
    }
}

// By name and not by `From`, here and below: a conversion of any Result with a number in it would not say that it is a fault.
fn decode_len(bytes: &[u8], width: usize) -> Answer
    ensures { response_of result ≡ answered (decode_len bytes.now width) }
{
    match decode_len_be(bytes, width) {
        Ok(len) => Answer::Number(len as u64),
        Err(error) => Answer::Refused(error),
    }
}

fn value_or_fault(decoded: Result<u64, u8>) -> Answer
    ensures { response_of result ≡ valued decoded }
{
    match decoded {
        Ok(n) => Answer::Number(n),
        Err(fault) => Answer::Fault(fault),
    }
}
