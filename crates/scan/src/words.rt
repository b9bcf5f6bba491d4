// The words of a line, which borrow it.
ghost use Rattle.std.specs.Prelude.{◌≡◌};
ghost use Rattle.std.specs.Iterator.{item_count, YieldsFirstRef};
ghost use Rattle.scan.specs.Words.{left, trimmed};

use crate::lines::first_of;

const SPACE: u8 = b' ';

// `bytes` without the spaces at its front; `trim_ascii_start` would take tabs too.
fn past_spaces(bytes: &[u8]) -> &[u8]
    ensures { result.now ≡ trimmed bytes.now }
{
    let mut rest = bytes;
    while let [SPACE, tail @ ..] = rest {
        rest = tail;
    }
    rest
}

#[derive(Clone, Copy)]
pub struct Words<'a> {
    rest: &'a [u8],
}

impl<'a> Words<'a> {
    pub fn new(line: &'a [u8]) -> Words<'a>
        ensures { result.rest.now ≡ line.now }
    {
        Words { rest: line }
    }
}

impl<'a> Iterator for Words<'a> {
    type Item = &'a [u8];

    ghost next_gives = { YieldsFirstRef left };

    ghost remaining = { item_count left };

    fn next(&mut self) -> Option<&'a [u8]> {
        self.rest = past_spaces(self.rest);
        if self.rest.is_empty() {
            return None;
        }
        let (word, rest) = self.rest.split_at(first_of(self.rest, SPACE));
        self.rest = rest;
        Some(word)
    }
}
