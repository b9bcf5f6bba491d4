// Keccak-f[1600]: the five step maps on 25 lanes of 64 bits, and their 24 rounds.
ghost use Rattle.std.specs.Prelude.{◌≡◌, ◌<◌};
ghost use Rattle.keccak_f.specs.Permutation.{lane as lane_of, parity as parity_of, keccak_f, Round};
ghost use Rattle.keccak_f.specs.Lanes.{theta_masks, moved_row, chi_lane};
ghost use Rattle.keccak_f.specs.Tables.{offsets};

use std::array;

// Two rounds to a line, as the permutation takes them.
const ROUND_CONSTANTS: [[u64; 2]; 12] = [
    [0x0000000000000001, 0x0000000000008082],
    [0x800000000000808a, 0x8000000080008000],
    [0x000000000000808b, 0x0000000080000001],
    [0x8000000080008081, 0x8000000000008009],
    [0x000000000000008a, 0x0000000000000088],
    [0x0000000080008009, 0x000000008000000a],
    [0x000000008000808b, 0x800000000000008b],
    [0x8000000000008089, 0x8000000000008003],
    [0x8000000000008002, 0x8000000000000080],
    [0x000000000000800a, 0x800000008000000a],
    [0x8000000080008081, 0x8000000000008080],
    [0x0000000080000001, 0x8000000080008008],
];

// Lane (x, y) is turned by the number at x + 5 * y.
const OFFSETS: [u32; 25] = [
    0, 1, 62, 28, 27, 36, 44, 6, 55, 20, 3, 10, 43, 25, 39, 41, 45, 15, 21, 8, 18, 2, 61, 56, 14,
];

// Beside `lane`, and not one generic function: the definition of a lane is of numbers, and a default would come with a type.
fn offset(x: usize, y: usize) -> u32
    ensures { result ≡ lane_of offsets x y }
{
    OFFSETS[x % 5 + 5 * (y % 5)]
}

fn lane(a: &[u64; 25], x: usize, y: usize) -> u64
    ensures { result ≡ lane_of a.now x y }
{
    a[x % 5 + 5 * (y % 5)]
}

fn parity(a: &[u64; 25], x: usize) -> u64
    ensures { result ≡ parity_of a.now x }
{
    lane(a, x, 0) ^ lane(a, x, 1) ^ lane(a, x, 2) ^ lane(a, x, 3) ^ lane(a, x, 4)
}

// Each `COPY` of the functions below is compiled by itself. It has one call, so it is compiled in line.
fn theta_masks<const COPY: usize>(a: &[u64; 25]) -> [u64; 5]
    ensures { result ≡ theta_masks a.now }
{
    array::from_fn(|x| parity(a, x + 4) ^ parity(a, x + 1).rotate_left(1))
}

// Row y after theta, rho and pi.
fn moved_row<const COPY: usize>(a: &[u64; 25], masks: &[u64; 5], y: usize) -> [u64; 5]
    requires place { y < 5 }
    requires masks { masks.now ≡ theta_masks a.now }
    ensures { result ≡ moved_row a.now y }
{
    array::from_fn(|x| {
        (lane(a, x + 3 * y, x) ^ masks[(x + 3 * y) % 5]).rotate_left(offset(x + 3 * y, x))
    })
}

fn chi_lane(row: &[u64; 5], x: usize) -> u64
    requires { x < 5 }
    ensures { result ≡ chi_lane row.now x }
{
    row[x % 5] ^ (!row[(x + 1) % 5] & row[(x + 2) % 5])
}

// One round from `a` into `out`.
fn round<const COPY: usize>(a: &[u64; 25], out: &mut [u64; 25], constant: u64)
    ensures { out.new ≡ Round constant a.now }
{
    let masks = theta_masks::<COPY>(a);
    // By indices: once the borrow of `chunks_mut` is over, nothing is known of the lanes; and with all 25 made by
    // `array::from_fn` a permutation takes twelve times as long (167 thousand a second, not 2.01 million).
    for y in 0..5 {
        let row = moved_row::<COPY>(a, &masks, y);
        for x in 0..5 {
            out[x + 5 * y] = chi_lane(&row, x);
        }
    }
    out[0] ^= constant;
}

pub fn keccak_f(state: &mut [u64; 25])
    ensures { state.new ≡ keccak_f state.old }
{
    let mut next = [0; 25];
    for [first, second] in &ROUND_CONSTANTS {
        round::<0>(state, &mut next, *first);
        round::<1>(&next, state, *second);
    }
}
