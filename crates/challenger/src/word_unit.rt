// The unit for a sponge that takes 32-bit words: three bytes of a string to a word.
ghost use Rattle.std.specs.Prelude.{◌≡◌, length, slice_index};
ghost use Rattle.challenger.specs.Words.{group, words, quads};
ghost use Rattle.digits.specs.Digits.{number, number_le};
ghost use Rattle.challenger.specs.Packing.{words_unitary, quads_unitary};

use crate::can_observe::CanObserve;
use crate::scalar_unit::ScalarUnit;
use crate::unit::Unit;
use std::array;

#[derive(Clone, Copy)]
pub struct WordUnit {}

// The first four bytes, completed by zero bytes. Read one by one: a copy whose length is known only at run time is a call.
fn padded(bytes: &[u8]) -> [u8; 4]
    ensures { result ≡ group 4 bytes.now 0 }
{
    array::from_fn(|i| bytes.get(i).copied().unwrap_or(0))
}

// Two readers and two loops, below: one of both would take the reader as a closure, whose contract is longer than the loop.

// The word of the first three bytes of a string.
fn word_of(bytes: &[u8]) -> u32
    ensures { result ≡ number (group 3 bytes.now 0) }
{
    let [a, b, c, _] = padded(bytes);
    u32::from_be_bytes([0, a, b, c])
}

// The word of the first four wire bytes of a field value.
fn quad_of(wire: &[u8]) -> u32
    ensures { result ≡ number_le (group 4 wire.now 0) }
{
    u32::from_le_bytes(padded(wire))
}

impl WordUnit {
    // How many words a byte string has.
    pub fn word_count(bytes: &[u8]) -> usize
        ensures { result ≡ length (words bytes.now) }
    {
        bytes.len().div_ceil(3)
    }

    // Word `i` of a byte string, and 0 past the end.
    pub fn word(bytes: &[u8], i: usize) -> u32
        ensures { result ≡ slice_index (words bytes.now) i }
    {
        // By its place: `nth` of the chunks would walk over all before it.
        match bytes.get(i.saturating_mul(3)..) {
            Some([a, b, c, ..]) => u32::from_be_bytes([0, *a, *b, *c]),
            Some(rest) => word_of(rest),
            None => 0,
        }
    }
}

impl Unit for WordUnit {
    type Item = u32;

    ghost items = { words };

    ghost unitary = { words_unitary };

    fn observe_bytes<C: CanObserve<u32>>(challenger: &mut C, bytes: &[u8]) {
        // Whole groups by a pattern: with `chunks`, which asks each for its length, a word takes twice as long.
        let mut rest = bytes;
        while let [a, b, c, tail @ ..] = rest {
            challenger.observe(u32::from_be_bytes([0, *a, *b, *c]));
            rest = tail;
        }
        if !rest.is_empty() {
            challenger.observe(word_of(rest));
        }
    }
}

impl ScalarUnit for WordUnit {
    ghost scalars = { quads };

    ghost unitary = { quads_unitary };

    fn observe_scalar<C: CanObserve<u32>>(challenger: &mut C, wire: &[u8]) {
        for group in wire.chunks(4) {
            challenger.observe(quad_of(group));
        }
    }
}
