// Length prefix used by bounded transcript steps.
//
// A bounded step declares a maximum count when its pattern is recorded, and sends the actual count
// as a big-endian integer. Both ends derive the prefix's width from the maximum:
//
//     max == 0       -> width 0     (the only count is 0)
//     max <= 255     -> width 1
//     max <= 65535   -> width 2
//     ..
//     max <= 2^64-1  -> width 8
//
// No width travels on the wire.
#![tactic(auto)]

mod laws;

ghost use Rattle.std.specs.Prelude.{◌≡◌, ◌≤◌, true, not, List, ◌++◌, Ok};
ghost use Rattle.length_prefix.specs.Laws.{LeastWidth};
ghost use Rattle.length_prefix.specs.Prefix.{width as width_of, fits, encoded, decoded};

use error::TranscriptError;
pub use laws::{prefixes_read_back, widths_are_least};

// A count fits a usize, so no prefix is wider.
const WIDEST: usize = 8;

// Number of big-endian bytes needed to encode any count in `0..=max`.
pub fn bound_byte_width(max: usize) -> usize
    ensures value { result ≡ width_of max }
    ensures least { LeastWidth max result }
    ensures bound { result ≤ 8 }
{
    // Count the significant bits, then round up to whole bytes.
    let bits = usize::BITS - max.leading_zeros();
    bits.div_ceil(8) as usize
}

// `len` in the first `width` of eight bytes, zeros after it; and whether it is refused, which leaves eight zeros.
// The flag stands beside the bytes, since a refusal has its bytes too.
pub fn encode_len_be(len: usize, width: usize) -> ([u8; 8], bool)
    ensures bytes { result.0 ≡ encoded len width }
    ensures refused { result.1 ≡ not (fits len width) }
{
    let mut out = [0u8; 8];
    if width > WIDEST {
        return (out, true);
    }
    // For width 0 the limit is 1, so only length 0 is legal.
    if width < WIDEST && len >= 1 << (width * 8) {
        return (out, true);
    }
    // The significant bytes stand last in `full`, and first in `out`:
    //
    //     width = 3, len = 0x010203
    //     full   = [00, 00, 00, 00, 00, 01, 02, 03]
    //     out    = [01, 02, 03, 00, 00, 00, 00, 00]
    let full = len.to_be_bytes();
    out[0..width].copy_from_slice(&full[WIDEST - width..]);
    (out, false)
}

// What the first `width` bytes of `buf` say.
pub fn decode_len_be(buf: &[u8], width: usize) -> Result<usize, TranscriptError>
    ensures { result ≡ decoded buf.now width }
{
    if width > WIDEST || width > buf.len() {
        return Err(TranscriptError::InvalidPrefix);
    }
    let mut padded = [0u8; 8];
    padded[WIDEST - width..].copy_from_slice(&buf[0..width]);
    Ok(usize::from_be_bytes(padded))
}

#[cfg(test)]
mod tests {
    use super::*;

    // Maxima, each with its width.
    const WIDTHS: [(usize, usize); 12] = [
        (0, 0),
        (1, 1),
        (255, 1),
        (256, 2),
        (65535, 2),
        (65536, 3),
        (0x1000000, 4),
        (0x100000000, 5),
        (0x100000000000000, 8),
        (0xffffffffffffffff, 8),
        (300, 2),
        (0xffffff, 3),
    ];

    #[test]
    fn widths_at_the_edges(rt: HostRuntime) {
        for (max, width) in WIDTHS {
            assert_eq!(rt; bound_byte_width(max), width);
        }
    }

    // 2 in each width, which no width but 0 and those above 8 refuses.
    #[test]
    fn two_in_each_width(rt: HostRuntime) {
        for width in 0..10usize {
            let (bytes, refused) = encode_len_be(2, width);
            assert_eq!(rt; refused, width == 0 || width > 8);
            for (i, b) in bytes.iter().enumerate() {
                let last = !refused && i + 1 == width;
                assert_eq!(rt; *b, if last { 2 } else { 0 });
            }
        }
    }

    #[test]
    fn buffers_short_exact_and_long(rt: HostRuntime) {
        let buf = [1, 2, 3, 4, 5, 6, 7, 8, 9];
        for len in 0..10usize {
            let read = decode_len_be(&buf[0..len], 3);
            match read {
                Ok(n) => assert_eq!(rt; (n, len >= 3), (0x010203, true)),
                Err(e) => assert_eq!(rt; (e.number(), len < 3), (2, true)),
            }
        }
    }
}
