// The lines of a text, which borrow it. The library's `split` holds a closure, so that its type has no name.
ghost use Rattle.std.specs.Prelude.{◌≡◌, ◌≤◌, length};
ghost use Rattle.std.specs.Iterator.{at_most, YieldsFirstRef};
ghost use Rattle.scan.specs.Lines.{left, place};

const NEWLINE: u8 = b'\n';

// The index of the first `b` in `bytes`, or their number where there is none.
pub(crate) fn first_of(bytes: &[u8], b: u8) -> usize
    ensures value { result ≡ place b bytes.now }
    ensures within { result ≤ length bytes.now }
{
    bytes.iter().position(|x| *x == b).unwrap_or(bytes.len())
}

#[derive(Clone, Copy)]
pub struct Lines<'a> {
    rest: &'a [u8],
}

impl<'a> Lines<'a> {
    pub fn new(text: &'a [u8]) -> Lines<'a>
        ensures { result.rest.now ≡ text.now }
    {
        Lines { rest: text }
    }
}

impl<'a> Iterator for Lines<'a> {
    type Item = &'a [u8];

    ghost next_gives = { YieldsFirstRef left };

    ghost remaining = { λ s. at_most (length s.rest.now) };

    // The next line without its newline.
    fn next(&mut self) -> Option<&'a [u8]> {
        let text = self.rest;
        if text.is_empty() {
            return None;
        }
        let end = first_of(text, NEWLINE);
        self.rest = text.get(end + 1..).unwrap_or(&[]);
        Some(&text[..end])
    }
}
