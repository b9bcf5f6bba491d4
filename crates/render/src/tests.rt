// Renderings written by hand.
use crate::rendering::render_to_vec;
use std::process::Abort;
use std::test::Fail;
use step::interaction::{Hierarchy, Interaction, Kind, Length};
use step::text::Text;
use step::type_tag::TypeTag;

// Of bytes that make none, `u8`.
fn text(bytes: &[u8]) -> Text {
    Text::new(bytes).unwrap_or(Text::u8())
}

fn scope(hierarchy: Hierarchy, kind: Kind, label: &[u8]) -> Interaction {
    Interaction::marker(hierarchy, kind, text(label), Text::u8())
}

fn leaf(kind: Kind, label: &[u8], length: Length) -> Interaction {
    Interaction::bytes(Hierarchy::Atomic, kind, text(label), length)
}

fn check_renders(
    rt: &(impl Abort + AllocGlobal),
    steps: &[Interaction],
    text: &[u8],
) -> Result<(), Fail> {
    let rendered = render_to_vec(rt.alloc(), steps)?;
    assert!(rt; rendered.as_slice() == text);
    Ok(())
}

#[test]
fn no_steps(rt: HostRuntime) -> Result<(), Fail> {
    check_renders(
        &rt,
        &[],
        b"Plonky3 Fiat-Shamir Transcript (0 interactions)\n",
    )
}

// The second closer closes nothing, and stands at the left edge as the first does.
#[test]
fn closers_without_opener(rt: HostRuntime) -> Result<(), Fail> {
    let steps = [
        scope(Hierarchy::End, Kind::Hint, b"a"),
        scope(Hierarchy::End, Kind::Hint, b"a"),
        scope(Hierarchy::Begin, Kind::Hint, b"b"),
        leaf(Kind::Hint, b"c", Length::None),
    ];
    check_renders(
        &rt,
        &steps,
        b"Plonky3 Fiat-Shamir Transcript (4 interactions)
0 End Hint 1 a None Marker
1 End Hint 1 a None Marker
2 Begin Hint 1 b None Marker
3   Atomic Hint 1 c None Bytes
",
    )
}

#[test]
fn twelve_steps(rt: HostRuntime) -> Result<(), Fail> {
    let mut basis = [0x5e; 32];
    basis[0] = 0x01;
    let mut element = leaf(Kind::Message, b"m", Length::Fixed(3));
    element.type_tag = TypeTag::algebra(2013265921, 4, basis);
    let steps = [
        scope(Hierarchy::Begin, Kind::Protocol, b"outer"),
        leaf(Kind::Public, b"x", Length::Scalar),
        scope(Hierarchy::Begin, Kind::Message, b"in"),
        element,
        scope(Hierarchy::End, Kind::Message, b"in"),
        leaf(Kind::Challenge, b"c", Length::Scalar),
        leaf(Kind::Hint, b"hint h", Length::Bounded(10)),
        leaf(Kind::Pow, b"pow", Length::Fixed(8)),
        leaf(Kind::Salt, b"", Length::Fixed(32)),
        leaf(Kind::Public, b"nine", Length::None),
        leaf(Kind::Message, b"ten", Length::Scalar),
        scope(Hierarchy::End, Kind::Protocol, b"outer"),
    ];
    check_renders(
        &rt,
        &steps,
        b"Plonky3 Fiat-Shamir Transcript (12 interactions)
00 Begin Protocol 5 outer None Marker
01   Atomic Public 1 x Scalar Bytes
02   Begin Message 2 in None Marker
03     Atomic Message 1 m Fixed(3) Algebra(2013265921^4;015e5e5e5e5e5e5e5e5e5e5e5e5e5e5e5e5e5e5e5e5e5e5e5e5e5e5e5e5e5e5e)
04   End Message 2 in None Marker
05   Atomic Challenge 1 c Scalar Bytes
06   Atomic Hint 6 hint h Bounded(10) Bytes
07   Atomic Pow 3 pow Fixed(8) Bytes
08   Atomic Salt 0  Fixed(32) Bytes
09   Atomic Public 4 nine None Bytes
10   Atomic Message 3 ten Scalar Bytes
11 End Protocol 5 outer None Marker
",
    )
}
