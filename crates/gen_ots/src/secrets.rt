//! The secrets of keys, which are read from blocks of streams of ChaCha20.
//!
//! A block of sixteen words has the two secrets of one bit of one leaf: first that of side 0, then that of
//! side 1.
ghost use Rattle.std.specs.Prelude.{◌≡◌, ℕ, ◌<◌, ◌+◌, ◌*◌, ◌^◌, List};
ghost use Rattle.rand_chacha.specs.ChaCha.{key_of};
ghost use Rattle.sha_lanes.specs.Lanes.{lane_bytes};
ghost use Rattle.gen_ots.specs.Blocks.{HasBlock};
ghost use Rattle.gen_ots.specs.Secrets.{secret_at, secret_block, secret_stream};

use crate::chacha::blocks_in_lanes;
use crate::lanes::swap_bytes;
use crate::sizes::DIGEST_BITS;
use gen_types::TreeHeight;
use rand_core::utils::read_u32;
use sha_lanes::{LANES, Words};

/// The number of the stream of ChaCha20 that has the secrets of trees of four levels.
const STREAM_OF_FOUR: u64 = 0;

/// The number of the stream of ChaCha20 that has the secrets of trees of six levels.
const STREAM_OF_SIX: u64 = 1;

/// Returns the stream that has the secrets of trees of this height: its key, which is the eight words of the
/// seed, the low byte of each first, and its number.
pub fn stream_of(seed: &[u8; 32], height: TreeHeight) -> ([u32; 8], u64)
    ensures key { result.0 ≡ key_of seed.now }
    ensures number { result.1 ≡ secret_stream height }
{
    let number = match height {
        TreeHeight::Four => STREAM_OF_FOUR,
        TreeHeight::Six => STREAM_OF_SIX,
    };
    let key = [
        read_u32(seed, 0),
        read_u32(seed, 1),
        read_u32(seed, 2),
        read_u32(seed, 3),
        read_u32(seed, 4),
        read_u32(seed, 5),
        read_u32(seed, 6),
        read_u32(seed, 7),
    ];
    (key, number)
}

/// Returns the number of the block that has the secrets of a bit of a leaf: 256 times the leaf, plus the
/// bit.
pub fn block_of(leaf: u8, bit: usize) -> u64
    requires { bit < DIGEST_BITS }
    ensures { result ≡ secret_block leaf bit }
{
    u64::from(leaf) * DIGEST_BITS as u64 + bit as u64
}

/// Returns blocks, one in each lane: block `first` of the stream, and in each lane after it the block whose number
/// is greater by `step`.
#[inline(always)]
pub fn blocks_from(key: &[u32; 8], stream: u64, first: u64, step: u64) -> [Words; 16]
    requires { first + step * LANES < 2 ^ 64 }
    ensures { (j : ℕ) → j < LANES → HasBlock j result key.now stream (first + step * j) }
{
    let mut counters = [0; LANES];
    'lanes: for j in 0..LANES {
        counters[j] = first + step * j as u64;
    }
    blocks_in_lanes(key, stream, &counters)
}

/// Returns the secrets of a side, 0 or 1, in these blocks, one in each lane, as words whose high byte comes
/// first.
#[inline(always)]
pub fn secrets_on(side: usize, blocks: &[Words; 16]) -> [Words; 8]
    requires { side < 2 }
    ensures { (j : ℕ) → j < LANES → (key : List ℕ) → (stream counter : ℕ)
        → HasBlock j blocks.now key stream counter
        → lane_bytes j result ≡ secret_at key stream (16 * counter + 8 * side) }
{
    let at = 8 * side;
    [
        swap_bytes(blocks[at]),
        swap_bytes(blocks[at + 1]),
        swap_bytes(blocks[at + 2]),
        swap_bytes(blocks[at + 3]),
        swap_bytes(blocks[at + 4]),
        swap_bytes(blocks[at + 5]),
        swap_bytes(blocks[at + 6]),
        swap_bytes(blocks[at + 7]),
    ]
}
