//! The block function of ChaCha20 (RFC 8439, section 2.3), for blocks side by side.
//!
//! Each word of a state is a vector, with one lane for each block. The blocks have one key and one stream,
//! and each has a counter of its own. Counter and stream have 64 bits each.
ghost use Rattle.std.specs.Prelude.{◌≡◌, ℕ, ◌<◌, ◌/◌, ◌%◌, ◌^◌, slice_index};
ghost use Rattle.rand_chacha.specs.Block.{column_round, diagonal_round, initial_state, xor_rotate};
ghost use Rattle.rand_chacha.specs.Lanes.{lane};
ghost use Rattle.gen_ots.specs.Blocks.{HasBlock, half_rounds};

use sha_lanes::words::add;
use sha_lanes::{LANES, Words};

/// The number of double rounds of ChaCha20, each of which is a round on columns and a round on diagonals.
const DOUBLE_ROUNDS: usize = 10;

// Returns for each lane the bits in which its two words differ, rotated to the left by `count` bits.
#[inline(always)]
fn xor_rotate(x: Words, y: Words, count: u32) -> Words
    requires some { 0 < count }
    requires fits { count < 32 }
    ensures { (j : ℕ) → j < LANES
        → slice_index result j ≡ xor_rotate (slice_index x j) (slice_index y j) count }
{
    let mixed = x ^ y;
    (mixed << Words::splat(count)) | (mixed >> Words::splat(32 - count))
}

// Returns the states after one half of the quarter round (RFC 8439, section 2.1) on each column, where a
// state is read as four rows. Rotations by 16 and 12 make the first half, and rotations by 8 and 7 the
// second.
#[rattlefmt::skip]
#[inline(always)]
fn half_rounds(state: [Words; 16], first: u32, second: u32) -> [Words; 16]
    requires some { (0 < first) × (0 < second) }
    requires fit { (first < 32) × (second < 32) }
    ensures { (j : ℕ) → j < LANES
        → lane j result ≡ half_rounds first second (lane j state) }
{
    let [
        a0, a1, a2, a3,
        b0, b1, b2, b3,
        c0, c1, c2, c3,
        d0, d1, d2, d3,
    ] = state;
    let (a0, a1, a2, a3) = (add(a0, b0), add(a1, b1), add(a2, b2), add(a3, b3));
    let d0 = xor_rotate(d0, a0, first);
    let d1 = xor_rotate(d1, a1, first);
    let d2 = xor_rotate(d2, a2, first);
    let d3 = xor_rotate(d3, a3, first);
    let (c0, c1, c2, c3) = (add(c0, d0), add(c1, d1), add(c2, d2), add(c3, d3));
    let b0 = xor_rotate(b0, c0, second);
    let b1 = xor_rotate(b1, c1, second);
    let b2 = xor_rotate(b2, c2, second);
    let b3 = xor_rotate(b3, c3, second);
    [
        a0, a1, a2, a3,
        b0, b1, b2, b3,
        c0, c1, c2, c3,
        d0, d1, d2, d3,
    ]
}

// Returns the states after the quarter round on each column (RFC 8439, section 2.3).
#[inline(always)]
fn column_round(state: [Words; 16]) -> [Words; 16]
    ensures { (j : ℕ) → j < LANES → lane j result ≡ column_round (lane j state) }
{
    let half = half_rounds(state, 16, 12);
    half_rounds(half, 8, 7)
}

// Returns the states after the quarter round on each diagonal (RFC 8439, section 2.3). The rows are
// turned, so that the diagonals become columns, and are turned back afterwards.
#[rattlefmt::skip]
#[inline(always)]
fn diagonal_round(state: [Words; 16]) -> [Words; 16]
    ensures { (j : ℕ) → j < LANES → lane j result ≡ diagonal_round (lane j state) }
{
    let [
        x0, x1, x2, x3,
        x4, x5, x6, x7,
        x8, x9, x10, x11,
        x12, x13, x14, x15,
    ] = state;
    let [
        a0, a1, a2, a3,
        b0, b1, b2, b3,
        c0, c1, c2, c3,
        d0, d1, d2, d3,
    ] = column_round([
        x0, x1, x2, x3,
        x5, x6, x7, x4,
        x10, x11, x8, x9,
        x15, x12, x13, x14,
    ]);
    [
        a0, a1, a2, a3,
        b3, b0, b1, b2,
        c2, c3, c0, c1,
        d1, d2, d3, d0,
    ]
}

// Returns the low word and the high word of a number.
#[inline(always)]
fn halves(x: u64) -> (u32, u32)
    ensures low { result.0 ≡ x % 2 ^ 32 }
    ensures high { result.1 ≡ x / 2 ^ 32 }
{
    ((x & 0xffff_ffff) as u32, (x >> 32) as u32)
}

// Returns the states before the rounds: the constants, the key, the counter of each lane, and the stream.
#[inline(always)]
fn initial_states(key: &[u32; 8], stream: u64, counters: &[u64; LANES]) -> [Words; 16]
    ensures { (j : ℕ) → j < LANES
        → lane j result ≡ initial_state key.now (slice_index counters.now j) stream }
{
    let mut low = [0; LANES];
    let mut high = [0; LANES];
    'lanes: for j in 0..LANES {
        let (low_word, high_word) = halves(counters[j]);
        low[j] = low_word;
        high[j] = high_word;
    }
    let (stream_low, stream_high) = halves(stream);
    [
        Words::splat(0x6170_7865),
        Words::splat(0x3320_646e),
        Words::splat(0x7962_2d32),
        Words::splat(0x6b20_6574),
        Words::splat(key[0]),
        Words::splat(key[1]),
        Words::splat(key[2]),
        Words::splat(key[3]),
        Words::splat(key[4]),
        Words::splat(key[5]),
        Words::splat(key[6]),
        Words::splat(key[7]),
        Words::from_array(low),
        Words::from_array(high),
        Words::splat(stream_low),
        Words::splat(stream_high),
    ]
}

/// Returns the sixteen words of each of the blocks with these counters. Lane j has the block of counter j.
#[rattlefmt::skip]
#[inline(never)]
pub fn blocks_in_lanes(key: &[u32; 8], stream: u64, counters: &[u64; LANES]) -> [Words; 16]
    ensures { (j : ℕ) → j < LANES
        → HasBlock j result key.now stream (slice_index counters.now j) }
{
    let first = initial_states(key, stream, counters);
    let mut state = first;
    'rounds: for _done in 0..DOUBLE_ROUNDS {
        state = diagonal_round(column_round(state));
    }
    [
        add(state[0], first[0]), add(state[1], first[1]), add(state[2], first[2]), add(state[3], first[3]),
        add(state[4], first[4]), add(state[5], first[5]), add(state[6], first[6]), add(state[7], first[7]),
        add(state[8], first[8]), add(state[9], first[9]), add(state[10], first[10]), add(state[11], first[11]),
        add(state[12], first[12]), add(state[13], first[13]), add(state[14], first[14]), add(state[15], first[15]),
    ]
}
