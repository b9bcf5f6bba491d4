// Numbers, bytes and tags as an answer has them.
ghost use Rattle.std.specs.List.{flat_map};
ghost use Rattle.sink.specs.Taking.{Takes};
ghost use Rattle.replies.specs.Texts.{hex_text, spaced, algebra_text};

use sink::sink::Sink;
use sink::write::{put_decimal, put_hex};
use step::type_tag::TypeTag;

// Each after a space.
pub(crate) fn put_numbers<S: Sink>(sink: &mut S, numbers: &[u64])
    ensures { Takes S.holds sink.old (flat_map spaced numbers.now) sink.new }
{
    for n in numbers {
        sink.put(b" ");
        put_decimal(sink, *n);
    }
}

// In pairs of digits, and `-` for no bytes.
pub(crate) fn put_bytes<S: Sink>(sink: &mut S, bytes: &[u8])
    ensures { Takes S.holds sink.old (hex_text bytes.now) sink.new }
{
    match bytes {
        [] => sink.put(b"-"),
        _ => put_hex(sink, bytes),
    }
}

// Not by the rendering's writer, which writes the same: what an answer says is its own format, and a rendering is hashed.
pub(crate) fn put_algebra<S: Sink>(sink: &mut S, tag: &TypeTag)
    ensures { Takes S.holds sink.old (algebra_text tag.now.modulus tag.now.degree tag.now.basis) sink.new }
{
    sink.put(b"Algebra(");
    put_decimal(sink, tag.modulus);
    sink.put(b"^");
    put_decimal(sink, tag.degree as u64);
    sink.put(b";");
    put_bytes(sink, &tag.basis);
    sink.put(b")");
}
