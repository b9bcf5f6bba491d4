// Bytes as a word writes them: pairs of hexadecimal digits in lower case.
ghost use Rattle.std.specs.Prelude.{◌≡◌, ◌<◌, [], ◌∷◌, length, IfOk};
ghost use Rattle.std.specs.Option.{option_map};
ghost use Rattle.scan.specs.Hex.{is_hex, digit, in_pairs, paired, hexed, bytes_of};

use std::alloc::{AllocError, Global};

fn is_hex(b: u8) -> bool
    ensures { result ≡ is_hex b }
{
    matches!(b, b'0'..=b'9' | b'a'..=b'f')
}

// The value of a digit, and 0 for any other byte: a number for each byte, so that what was checked once needs no second refusal.
fn value(b: u8) -> u8
    ensures bound { result < 16 }
    ensures value { result ≡ digit b }
{
    match b {
        b'0'..=b'9' => b - b'0',
        b'a'..=b'f' => b - b'a' + 10,
        _ => 0,
    }
}

// The byte of one pair.
pub fn byte(high: u8, low: u8) -> Option<u8>
    ensures { option_map (λ b. b ∷ []) result ≡ paired (high ∷ low ∷ []) }
{
    (is_hex(high) && is_hex(low)).then_some(value(high) * 16 + value(low))
}

fn in_pairs(digits: &[u8]) -> bool
    ensures { result ≡ in_pairs digits.now }
{
    digits.len() % 2 == 0 && digits.iter().all(|d| is_hex(*d))
}

// Pairs of digits that stand for bytes.
#[derive(Clone, Copy)]
pub struct Hex<'a> {
    digits: &'a [u8],
}

impl<'a> Hex<'a> {
    // Pairs, or `-` for no bytes.
    pub fn bytes(word: &'a [u8]) -> Option<Hex<'a>>
        ensures { option_map bytes_of result ≡ hexed word.now }
    {
        match word {
            [] => None,
            [b'-'] => Some(Hex { digits: &[] }),
            _ => in_pairs(word).then_some(Hex { digits: word }),
        }
    }

    pub fn len(&self) -> usize
        ensures { result ≡ length (bytes_of self.now) }
    {
        self.digits.len() / 2
    }

    pub fn to_vec(&self, heap: Global) -> Result<Vec<u8>, AllocError>
        ensures { IfOk result (λ v. v.items ≡ bytes_of self.now) }
    {
        let (pairs, _) = self.digits.as_chunks::<2>();
        pairs
            .iter()
            .map(|[high, low]| value(*high) * 16 + value(*low))
            .collect(heap)
    }
}
