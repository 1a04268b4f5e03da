//! One-time keys.
ghost use Rattle.std.specs.Prelude.{◌≡◌, ℕ, ◌<◌, ◌≤◌, ◌+◌, [], length, slice_index_or, true, false};
ghost use Rattle.gen_types.specs.Heights.{leaves_of};
ghost use Rattle.gen_ots.specs.OneTime.{key_leaf_value};
ghost use Rattle.gen_ots.specs.Signatures.{signature_of, signed_leaf_value};

use crate::hashing::{LEAF_PREFIX, are_ones, chosen_in_lanes, images_in_lanes};
use crate::secrets::{block_of, blocks_from, secrets_on, stream_of};
use crate::signatures::{OtsSig, SigRoom, push_pairs};
use crate::sizes::{DIGEST_BITS, OTS_BYTES};
use gen_types::TreeHeight;
use sha_lanes::{LANES, LaneHashers, OneHasher, Schedules, to_bytes};
use std::marker::Model;

/// A one-time key, which signs one digest or is retired. A contract sees its name, which is its seed,
/// height and leaf, and whether it is still to be spent.
///
/// It has no `Clone`, so it can't be copied. It has to be spent by `sign` or `retire`: code that drops a
/// key that may be unspent can't be proved. Spending it can't fail. Its seed isn't wiped from memory.
pub struct OneTimeKey {
    seed: [u8; 32],
    height: TreeHeight,
    leaf: u8,
    live: bool,
}

impl Model for OneTimeKey {
    ghost use Rattle.gen_ots.specs.OneTime.{KeyState};

    ghost Value = { KeyState };

    ghost view = { λ k. record {
      name = record { seed = k.seed; height = k.height; leaf = k.leaf };
      live = k.live;
    } };
}

impl Drop for OneTimeKey {
    // A key may be dropped only after it was spent.
    fn drop(self)
        requires { self.live ≡ false }
    {
        let OneTimeKey {
            seed: _,
            height: _,
            leaf: _,
            live: _,
        } = self;
    }
}

impl OneTimeKey {
    /// Returns the key of a seed for a leaf of a tree of this height. The number of the leaf must be below
    /// `height.leaves()`.
    pub fn new(seed: &[u8; 32], height: TreeHeight, leaf: u8) -> OneTimeKey
        requires { leaf < leaves_of height }
        ensures name { result.name ≡ record { seed = seed.now; height = height; leaf = leaf } }
        ensures live { result.live ≡ true }
    {
        OneTimeKey {
            seed: *seed,
            height,
            leaf,
            live: true,
        }
    }

    /// Returns the height of the tree in which the key has its leaf.
    pub fn height(&self) -> TreeHeight
        ensures { result ≡ self.now.name.height }
    {
        self.height
    }

    /// Returns the number of the key's leaf.
    pub fn leaf(&self) -> u8
        ensures { result ≡ self.now.name.leaf }
    {
        self.leaf
    }

    /// Returns the leaf value of the key: the hash of the images of all its secrets.
    pub fn leaf_value(&self) -> [u8; 32]
        ensures { result ≡ key_leaf_value self.now.name }
    {
        let (key, stream) = stream_of(&self.seed, self.height);
        let mut schedules = Schedules::new();
        let mut hasher = OneHasher::new(LEAF_PREFIX);
        // Each turn takes one bit for each lane, so that the secrets of these bits are hashed side by side.
        'turns: for turn in 0..DIGEST_BITS / LANES {
            let first = block_of(self.leaf, LANES * turn);
            let blocks = blocks_from(&key, stream, first, 1);
            let low = images_in_lanes(&mut schedules, &secrets_on(0, &blocks));
            let high = images_in_lanes(&mut schedules, &secrets_on(1, &blocks));
            hasher.update(&low, &high);
        }
        hasher.finalize()
    }

    /// Ends the key, and returns its signature of a digest. The room must be for the key's height. The
    /// call takes no memory beyond the room and can't fail.
    pub fn sign(self, room: SigRoom, digest: &[u8; 32]) -> OtsSig
        requires { room ≡ self.name.height }
        ensures bytes { result ≡ signature_of self.name digest.now }
        ensures leaf { signed_leaf_value result digest.now ≡ key_leaf_value self.name }
        ensures width { length result ≡ OTS_BYTES }
    {
        let mut this = self;
        this.live = false;
        let (key, stream) = stream_of(&this.seed, this.height);
        let mut schedules = Schedules::new();
        let mut bytes = room.bytes;
        // Each turn takes one bit for each lane, so that the secrets of these bits are hashed side by side.
        'turns: for turn in 0..DIGEST_BITS / LANES {
            let ones = are_ones(digest, LANES * turn);
            let first = block_of(this.leaf, LANES * turn);
            let blocks = blocks_from(&key, stream, first, 1);
            let low = secrets_on(0, &blocks);
            let high = secrets_on(1, &blocks);
            let shown = to_bytes(&chosen_in_lanes(&ones, &low, &high));
            let hidden = chosen_in_lanes(&ones, &high, &low);
            let images = to_bytes(&images_in_lanes(&mut schedules, &hidden));
            push_pairs(&mut bytes, &shown, &images);
        }
        OtsSig::owning(bytes)
    }

    /// Ends the key unused, and returns the number of its leaf.
    pub fn retire(self) -> u8
        ensures { result ≡ self.name.leaf }
    {
        let mut this = self;
        this.live = false;
        this.leaf
    }
}

/// Returns the leaf values of keys of a seed, one in each lane, which are hashed side by side: those of leaf
/// `first` and of the leaves after it. All of them must be leaves of a tree of this height.
pub fn leaf_values(seed: &[u8; 32], height: TreeHeight, first: u8) -> [[u8; 32]; LANES]
    requires { first + LANES ≤ leaves_of height }
    ensures { (j : ℕ) → j < LANES → slice_index_or result j [] ≡ key_leaf_value
        (record { seed = seed.now; height = height; leaf = first + j }) }
{
    let (key, stream) = stream_of(seed, height);
    let mut schedules = Schedules::new();
    let mut hashers = LaneHashers::new(LEAF_PREFIX);
    'bits: for bit in 0..DIGEST_BITS {
        let block = block_of(first, bit);
        let blocks = blocks_from(&key, stream, block, DIGEST_BITS as u64);
        let low = images_in_lanes(&mut schedules, &secrets_on(0, &blocks));
        let high = images_in_lanes(&mut schedules, &secrets_on(1, &blocks));
        hashers.update(&mut schedules, &low, &high);
    }
    hashers.finalize(&mut schedules)
}
