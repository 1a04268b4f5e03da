//! Signatures of digests, hashed side by side.
ghost use Rattle.std.specs.Prelude.{◌≡◌, ℕ, ◌<◌, [], map, slice_index_or};
ghost use Rattle.gen_ots.specs.SideBySide.{signed_value};

use crate::hashing::{LEAF_PREFIX, chosen_in_lanes, images_in_lanes, is_one};
use crate::signatures::{OtsSig, pair_at};
use crate::sizes::{DIGEST_BITS, HASH_BYTES};
use sha_lanes::{LANES, LaneHashers, Schedules, to_words};

/// A digest, and a signature of it.
#[derive(Clone, Copy)]
pub struct SignedDigest<'a> {
    /// The signature. It may be any bytes of a signature's length.
    pub signature: &'a OtsSig,
    /// The digest.
    pub digest: [u8; 32],
}

/// Returns the leaf values that signatures stand for, one in each lane and each of its own digest, as
/// `image_of` does for one. They are hashed side by side.
pub fn images_of_lanes(signed: &[SignedDigest<'_>; LANES]) -> [[u8; 32]; LANES]
    ensures { (j : ℕ) → j < LANES
        → slice_index_or result j [] ≡ slice_index_or (map signed_value signed.now) j [] }
{
    let mut schedules = Schedules::new();
    let mut hashers = LaneHashers::new(LEAF_PREFIX);
    'bits: for bit in 0..DIGEST_BITS {
        let mut secrets = [[0; HASH_BYTES]; LANES];
        let mut others = [[0; HASH_BYTES]; LANES];
        let mut ones = [false; LANES];
        'lanes: for j in 0..LANES {
            let (secret, image) = pair_at(signed[j].signature.as_bytes(), bit);
            secrets[j] = secret;
            others[j] = image;
            ones[j] = is_one(&signed[j].digest, bit);
        }
        let images = images_in_lanes(&mut schedules, &to_words(&secrets));
        let others = to_words(&others);
        let zeroth = chosen_in_lanes(&ones, &images, &others);
        let first = chosen_in_lanes(&ones, &others, &images);
        hashers.update(&mut schedules, &zeroth, &first);
    }
    hashers.finalize(&mut schedules)
}
