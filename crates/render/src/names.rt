// The words that the parts of a step are written by.
// They are put into a sink and not written by a `Display`: that may fail, and a sink, which may be a hash, takes all.
ghost use Rattle.std.specs.Prelude.{◌≡◌, ◌++◌, codes, decimal};
ghost use Rattle.sink.specs.Taking.{Takes};
ghost use Rattle.render.specs.Rendering.{hierarchy_name, kind_name, length_text, tag_text};

use sink::sink::Sink;
use sink::write::{put_decimal, put_hex};
use step::interaction::{Hierarchy, Kind, Length};
use step::tag_code::TagCode;
use step::type_tag::TypeTag;

pub(crate) fn name_of_hierarchy(hierarchy: Hierarchy) -> &'static [u8]
    ensures { result.now ≡ hierarchy_name hierarchy }
{
    match hierarchy {
        Hierarchy::Atomic => b"Atomic",
        Hierarchy::Begin => b"Begin",
        Hierarchy::End => b"End",
    }
}

pub(crate) fn name_of_kind(kind: Kind) -> &'static [u8]
    ensures { result.now ≡ kind_name kind }
{
    match kind {
        Kind::Protocol => b"Protocol",
        Kind::Public => b"Public",
        Kind::Message => b"Message",
        Kind::Hint => b"Hint",
        Kind::Challenge => b"Challenge",
        Kind::Pow => b"Pow",
        Kind::Salt => b"Salt",
    }
}

pub(crate) fn put_length<S: Sink>(sink: &mut S, length: Length)
    ensures { Takes S.holds sink.old (length_text length) sink.new }
{
    match length {
        Length::None => sink.put(b"None"),
        Length::Scalar => sink.put(b"Scalar"),
        Length::Fixed(n) => put_counted(sink, b"Fixed(", n),
        Length::Bounded(n) => put_counted(sink, b"Bounded(", n),
    }
}

fn put_counted<S: Sink>(sink: &mut S, opening: &[u8], n: usize)
    ensures { Takes S.holds sink.old (opening.now ++ (decimal n ++ codes ")")) sink.new }
{
    sink.put(opening);
    put_decimal(sink, n as u64);
    sink.put(b")");
}

pub(crate) fn put_tag<S: Sink>(sink: &mut S, tag: &TypeTag)
    ensures { Takes S.holds sink.old (tag_text tag.now) sink.new }
{
    match tag.code {
        TagCode::Marker => sink.put(b"Marker"),
        TagCode::Bytes => sink.put(b"Bytes"),
        TagCode::Algebra => {
            sink.put(b"Algebra(");
            put_decimal(sink, tag.modulus);
            sink.put(b"^");
            put_decimal(sink, tag.degree as u64);
            sink.put(b";");
            put_hex(sink, &tag.basis);
            sink.put(b")");
        }
    }
}
