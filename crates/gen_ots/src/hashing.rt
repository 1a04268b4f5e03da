//! What is hashed, and what the bits of a digest select.
ghost use Rattle.std.specs.Prelude.{◌≡◌, ℕ, ◌<◌, ◌≤◌, ◌+◌, List, [], ◌∷◌, ◌++◌, length, map, false, slice_index_or};
ghost use Rattle.sha_lanes.specs.Lanes.{lane_bytes};
ghost use Rattle.gen_ots.specs.OneTime.{image, leaf_prefix, bit_of, on_side};

use crate::lanes::select;
use crate::sizes::{DIGEST_BITS, HASH_BYTES};
use sha_lanes::{LANES, Schedules, Words, images};

/// The first byte of the text whose hash is the image of a secret; the secret follows it.
const IMAGE_PREFIX: u8 = 0x00;

/// The first byte of the text whose hash is the leaf value of a key; all images of the key follow it.
pub const LEAF_PREFIX: u8 = 0x01;

/// Returns the images of secrets, one in each lane, which are hashed side by side.
#[inline(always)]
pub fn images_in_lanes(schedules: &mut Schedules, secrets: &[Words; 8]) -> [Words; 8]
    ensures { (j : ℕ) → j < LANES → lane_bytes j result ≡ image (lane_bytes j secrets.now) }
{
    images(schedules, IMAGE_PREFIX, secrets)
}

/// Returns whether a bit of a digest is 1, counted from the most significant bit of byte 0.
pub fn is_one(digest: &[u8; 32], bit: usize) -> bool
    requires { bit < DIGEST_BITS }
    ensures { result ≡ bit_of digest.now bit }
{
    (digest[bit / 8] >> (7 - bit % 8)) % 2 == 1
}

/// Returns for each lane whether a bit of a digest is 1: bit `first` in lane 0, and those after it in the
/// others.
#[inline(always)]
pub fn are_ones(digest: &[u8; 32], first: usize) -> [bool; LANES]
    requires { first + LANES ≤ DIGEST_BITS }
    ensures { (j : ℕ) → j < LANES
        → slice_index_or result j false ≡ bit_of digest.now (first + j) }
{
    let mut ones = [false; LANES];
    'lanes: for j in 0..LANES {
        ones[j] = is_one(digest, first + j);
    }
    ones
}

/// Returns for each lane the 32 bytes on the side that the lane's bit names: those of `zeroth` if it is 0,
/// and those of `first` if it is 1.
#[inline(always)]
pub fn chosen_in_lanes(ones: &[bool; LANES], zeroth: &[Words; 8], first: &[Words; 8]) -> [Words; 8]
    ensures { (j : ℕ) → j < LANES → lane_bytes j result ≡ on_side (slice_index_or ones.now j false)
        (lane_bytes j zeroth.now) (lane_bytes j first.now) }
{
    [
        select(ones, zeroth[0], first[0]),
        select(ones, zeroth[1], first[1]),
        select(ones, zeroth[2], first[2]),
        select(ones, zeroth[3], first[3]),
        select(ones, zeroth[4], first[4]),
        select(ones, zeroth[5], first[5]),
        select(ones, zeroth[6], first[6]),
        select(ones, zeroth[7], first[7]),
    ]
}
