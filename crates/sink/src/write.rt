// Numbers in decimal, bytes in hexadecimal, and one text several times.
ghost use Rattle.std.specs.Prelude.{◌≡◌, ◌<◌, false, length, decimal};
ghost use Rattle.std.specs.Fmt.{digit_glyph};
ghost use Rattle.sink.specs.Taking.{Takes};
ghost use Rattle.sink.specs.Writing.{repeated, hex_text, padded};

use crate::sink::Sink;

// The number of decimal digits of `n`.
pub fn decimal_len(n: u64) -> usize
    ensures { result ≡ length (decimal n) }
{
    itoa::Buffer::new().format(n).len()
}

pub fn put_decimal<S: Sink>(sink: &mut S, n: u64)
    ensures { Takes S.holds sink.old (decimal n) sink.new }
{
    sink.put(itoa::Buffer::new().format(n).as_bytes());
}

// `bytes` so many times.
pub fn put_repeated<S: Sink>(sink: &mut S, bytes: &[u8], times: usize)
    ensures { Takes S.holds sink.old (repeated times bytes.now) sink.new }
{
    for _ in 0..times {
        sink.put(bytes);
    }
}

// With zeros on the left, so that it has at least `width` digits.
pub fn put_padded<S: Sink>(sink: &mut S, n: u64, width: usize)
    ensures { Takes S.holds sink.old (padded width n) sink.new }
{
    put_repeated(sink, b"0", width.saturating_sub(decimal_len(n)));
    put_decimal(sink, n);
}

// `char::from_digit` would give an optional `char`, where a byte is wanted that is always there.
fn hex_digit(d: u8) -> u8
    requires { d < 16 }
    ensures { result ≡ digit_glyph false d }
{
    if d < 10 { b'0' + d } else { b'a' + (d - 10) }
}

// Two lower-case digits for each byte.
pub fn put_hex<S: Sink>(sink: &mut S, bytes: &[u8])
    ensures { Takes S.holds sink.old (hex_text bytes.now) sink.new }
{
    for b in bytes {
        sink.put(&[hex_digit(*b / 16), hex_digit(*b % 16)]);
    }
}
