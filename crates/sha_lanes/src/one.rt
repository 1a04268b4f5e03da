//! One message that is hashed many blocks at a time, one for each lane.
//!
//! The rounds over a block add its schedule, which depends on the block alone. So the schedules of as many
//! blocks of a message as there are lanes are made side by side, and only the rounds go over one block
//! after another.
ghost use Rattle.std.specs.Prelude.{◌≡◌, ℕ, ◌<◌, ◌+◌, ◌%◌, ◌^◌, List, [], ◌∷◌, ◌++◌, slice_index, slice_index_or};
ghost use Rattle.sha2.specs.Sha256.{sha256};
ghost use Rattle.sha_lanes.specs.Lanes.{lane_at};
ghost use Rattle.sha_lanes.specs.One.{HoldsOne, all_blocks};

use crate::blocks::blocks;
use crate::hashers::LaneHashers;
use crate::plain::compress_lanes;
use crate::rounds::INITIAL_HASH;
use crate::scheduling::Schedules;
use crate::words::{LANES, Words};

/// The number of bytes of the two halves of a block in each lane.
const TURN_BYTES: u64 = 64 * LANES as u64;

/// A hasher of one message, which is one byte longer than whole blocks of 64 bytes.
#[derive(Drop)]
pub struct OneHasher {
    // The hash value after all whole blocks.
    hash: [u32; 8],
    // A word whose low byte is the last byte of the message, which is in no whole block yet.
    carry: u32,
    // The length of the message so far, in bytes modulo 2^64.
    total: u64,
}

impl OneHasher {
    /// Returns the hasher of a message that is the one byte `byte`.
    pub fn new(byte: u8) -> OneHasher
        ensures { HoldsOne result (byte ∷ []) }
    {
        OneHasher {
            hash: INITIAL_HASH,
            carry: u32::from(byte),
            total: 1,
        }
    }

    /// Appends 64 bytes for each lane to the message: the two halves in lane 0, and then those in the lanes
    /// after it.
    pub fn update(&mut self, first: &[Words; 8], second: &[Words; 8])
        ensures { (m : List ℕ) → HoldsOne self.old m
            → HoldsOne self.new (m ++ all_blocks first.now second.now) }
    {
        let carry = carried(self.carry, second[7]);
        self.hash = compress_lanes(self.hash, &blocks(carry, first, second));
        self.carry = second[7].to_array()[LANES - 1];
        self.total = self.total.wrapping_add(TURN_BYTES);
    }

    /// Returns the digest of the message.
    pub fn finalize(self) -> [u8; 32]
        ensures { (m : List ℕ) → HoldsOne self m → result ≡ sha256 m }
    {
        let alike = LaneHashers::alike(&self.hash, self.carry, self.total);
        alike.finalize(&mut Schedules::new())[0]
    }
}

// Returns for each lane the word whose low byte is carried into the lane's block: in lane 0 this word, and
// in each other lane the last word of the second half in the lane before.
#[inline(always)]
fn carried(carry: u32, last: Words) -> Words
    ensures first { slice_index result 0 ≡ carry }
    ensures others { (j : ℕ) → j + 1 < LANES → slice_index result (j + 1) ≡ slice_index last j }
{
    let before = last.to_array();
    let mut words = [carry; LANES];
    'lanes: for j in 1..LANES {
        words[j] = before[j - 1];
    }
    Words::from_array(words)
}
