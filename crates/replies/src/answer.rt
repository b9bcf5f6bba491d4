// The answer of a command, and its text: put into a sink, since a `Display` may fail, and a type name is bytes.
ghost use Rattle.std.specs.Prelude.{◌≡◌, IfOk};
ghost use Rattle.sink.specs.Taking.{Takes};
ghost use Rattle.replies.specs.Answers.{response_of};
ghost use Rattle.replies.specs.Responses.{text, refusal};

use crate::write::{put_algebra, put_bytes, put_numbers};
use error::TranscriptError;
use sink::sink::Sink;
use sink::vec_sink::VecSink;
use sink::write::put_decimal;
use std::alloc::{AllocError, Global};
use step::text::Text;
use step::type_tag::TypeTag;

// Most answers fit without growing.
const USUAL: usize = 64;

#[derive(Drop)]
pub enum Answer {
    Error,
    Number(u64),
    Numbers(Vec<u64>),
    Bytes(Vec<u8>),
    // The tag of a field, and its type name.
    Algebra(TypeTag, Text),
    // A codec's own number for bytes that are no value.
    Fault(u8),
    Refused(TranscriptError),
    RefusedBytes(TranscriptError, Vec<u8>),
}

impl Answer {
    pub fn to_text(&self, heap: Global) -> Result<Vec<u8>, AllocError>
        ensures { IfOk result (λ v. v.items ≡ text (response_of self.now)) }
    {
        let mut out = VecSink::from_vec(Vec::with_capacity(heap, USUAL)?);
        self.put(&mut out);
        out.finish()
    }

    fn put<S: Sink>(&self, sink: &mut S)
        ensures { Takes S.holds sink.old (text (response_of self.now)) sink.new }
    {
        match self {
            Answer::Error => sink.put(b"error"),
            Answer::Number(n) => {
                sink.put(b"ok ");
                put_decimal(sink, *n);
            }
            Answer::Numbers(numbers) => {
                sink.put(b"ok");
                put_numbers(sink, numbers.as_slice());
            }
            Answer::Bytes(bytes) => {
                sink.put(b"ok ");
                put_bytes(sink, bytes.as_slice());
            }
            Answer::Algebra(tag, name) => {
                sink.put(b"ok ");
                put_algebra(sink, tag);
                sink.put(b" ");
                sink.put(name.as_bytes());
            }
            Answer::Fault(fault) => {
                sink.put(b"fault ");
                put_decimal(sink, u64::from(*fault));
            }
            Answer::Refused(error) => put_refusal(sink, *error),
            Answer::RefusedBytes(error, bytes) => {
                put_refusal(sink, *error);
                sink.put(b" ");
                put_bytes(sink, bytes.as_slice());
            }
        }
    }
}

fn put_refusal<S: Sink>(sink: &mut S, error: TranscriptError)
    ensures { Takes S.holds sink.old (refusal error) sink.new }
{
    sink.put(b"refused ");
    put_decimal(sink, u64::from(error.number()));
}
