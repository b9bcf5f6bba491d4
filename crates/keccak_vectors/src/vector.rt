// One vector: the first byte of the padding, a message, and the digest that it should have.
use crate::digests::Digests;
use crate::message::Message;
use crate::tally::Tally;
use scan::hex::byte;
use std::alloc::{AllocError, Global};

#[derive(Clone, Copy)]
struct Vector<'a> {
    padding: u8,
    message: Message<'a>,
    input: &'a str,
    expected: &'a str,
}

// Nothing where the line is no vector.
fn parse(line: &str) -> Option<Vector<'_>> {
    let (input, expected) = line.rsplit_once(' ')?;
    let (first, name) = input.split_once(' ')?;
    let [high, low] = first.as_bytes() else {
        return None;
    };
    Some(Vector {
        padding: byte(*high, *low)?,
        message: Message::named(name)?,
        input,
        expected,
    })
}

// The line to print for the vector in `line`.
pub fn run(heap: Global, line: &str, tally: &mut Tally) -> Result<String, AllocError> {
    let Some(vector) = parse(line) else {
        tally.count(false, false);
        return format!(in heap; "UNREAD {line}");
    };
    let bytes = vector.message.to_vec(heap)?;
    let digests = Digests::of(vector.padding, bytes.as_slice());
    let found = hex::encode(heap, digests.whole)?;
    let agrees = found.as_str() == vector.expected
        && digests
            .in_parts
            .is_none_or(|digest| digest == digests.whole);
    tally.count(agrees, digests.in_parts.is_some());
    let verdict = if agrees { "agree" } else { "DIFFER" };
    let input = vector.input;
    format!(in heap; "{verdict} {input} {found}")
}
