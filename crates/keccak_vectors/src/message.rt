// The messages that a vector can name.
use scan::hex::Hex;
use std::alloc::{AllocError, Global};

const LONGEST: usize = 65536;

#[derive(Clone, Copy)]
pub(crate) enum Message<'a> {
    Bytes(Hex<'a>),
    // The bytes 0, 1, .., 250, 0, ..: their period has no divisor in common with a block's length.
    Pattern(usize),
}

impl<'a> Message<'a> {
    // Pairs of digits, `-` or an empty word for no bytes, or `len=N` for N bytes of the pattern.
    pub(crate) fn named(word: &'a str) -> Option<Message<'a>> {
        match word.strip_prefix("len=") {
            Some(digits) => match digits.parse::<usize>() {
                Ok(len) if len <= LONGEST => Some(Message::Pattern(len)),
                _ => None,
            },
            None if word.is_empty() => Some(Message::Pattern(0)),
            None => Hex::bytes(word.as_bytes()).map(Message::Bytes),
        }
    }

    pub(crate) fn to_vec(&self, heap: Global) -> Result<Vec<u8>, AllocError> {
        match self {
            Message::Bytes(hex) => hex.to_vec(heap),
            Message::Pattern(len) => (0..*len).map(|i| (i % 251) as u8).collect(heap),
        }
    }
}
