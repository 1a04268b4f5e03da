//! Messages that are hashed side by side, 64 bytes of each at a time.
ghost use Rattle.std.specs.Prelude.{◌≡◌, ℕ, ◌<◌, ◌%◌, ◌^◌, List, [], ◌∷◌, ◌++◌, replicate, slice_index, slice_index_or};
ghost use Rattle.std.specs.Int.{w64, to_be_bytes};
ghost use Rattle.sha2.specs.Sha256.{compress, sha256};
ghost use Rattle.sha_lanes.specs.Lanes.{block, lane_bytes, state};
ghost use Rattle.sha_lanes.specs.Hashers.{HoldsLane, state_of};

use crate::blocks::blocks;
use crate::halves::{to_bytes, to_words};
use crate::rounds::{compress, initial_states};
use crate::scheduling::Schedules;
use crate::words::{LANES, Words};

/// The number of bytes of the two halves of a block.
const BLOCK_BYTES: u64 = 64;

/// The first half of what pads a message that ends one byte into a block. The second half has the length.
#[rattlefmt::skip]
const PADDING_START: [u8; 32] = [
    0x80, 0, 0, 0, 0, 0, 0, 0, 0, 0, 0, 0, 0, 0, 0, 0,
    0, 0, 0, 0, 0, 0, 0, 0, 0, 0, 0, 0, 0, 0, 0, 0,
];

/// Hashers of messages, one in each lane, each one byte longer than whole blocks of 64 bytes.
#[derive(Drop)]
pub struct LaneHashers {
    // The hash values after all whole blocks, one word in each vector.
    a: Words,
    b: Words,
    c: Words,
    d: Words,
    e: Words,
    f: Words,
    g: Words,
    h: Words,
    // Words whose low bytes are the last bytes of the messages, which are in no whole block yet.
    carry: Words,
    // The length of each message so far, in bytes modulo 2^64.
    total: u64,
}

impl LaneHashers {
    /// Returns hashers of messages, each of which is the one byte `byte`.
    pub fn new(byte: u8) -> LaneHashers
        ensures { (j : ℕ) → j < LANES → HoldsLane j result (byte ∷ []) }
    {
        let [a, b, c, d, e, f, g, h] = initial_states();
        LaneHashers {
            a,
            b,
            c,
            d,
            e,
            f,
            g,
            h,
            carry: Words::splat(u32::from(byte)),
            total: 1,
        }
    }

    /// Returns hashers of messages that all have this hash value, this word whose low byte is carried, and
    /// this length.
    pub(crate) fn alike(hash: &[u32; 8], carry: u32, total: u64) -> LaneHashers
        ensures state { (j : ℕ) → j < LANES → state_of j result ≡ hash.now }
        ensures carry { (j : ℕ) → j < LANES → slice_index result.carry j ≡ carry }
        ensures total { result.total ≡ total }
    {
        let [a, b, c, d, e, f, g, h] = *hash;
        LaneHashers {
            a: Words::splat(a),
            b: Words::splat(b),
            c: Words::splat(c),
            d: Words::splat(d),
            e: Words::splat(e),
            f: Words::splat(f),
            g: Words::splat(g),
            h: Words::splat(h),
            carry: Words::splat(carry),
            total,
        }
    }

    // Returns the hash values after 64 bytes more of each message.
    #[inline(always)]
    fn hashed(
        &self,
        schedules: &mut Schedules,
        first: &[Words; 8],
        second: &[Words; 8],
    ) -> [Words; 8]
        ensures { (j : ℕ) → j < LANES → state j result
            ≡ compress (state_of j self.now) (block (slice_index self.now.carry j % 2 ^ 8)
            (lane_bytes j first.now) (lane_bytes j second.now)) }
    {
        let start = [
            self.a, self.b, self.c, self.d, self.e, self.f, self.g, self.h,
        ];
        schedules.begin(&blocks(self.carry, first, second));
        compress(start, schedules)
    }

    /// Appends 64 bytes to each message, given as two halves of eight words each.
    pub fn update(&mut self, schedules: &mut Schedules, first: &[Words; 8], second: &[Words; 8])
        ensures { (j : ℕ) → j < LANES → (m : List ℕ) → HoldsLane j self.old m → HoldsLane j self.new
            (m ++ (lane_bytes j first.now ++ lane_bytes j second.now)) }
    {
        let [a, b, c, d, e, f, g, h] = self.hashed(schedules, first, second);
        self.a = a;
        self.b = b;
        self.c = c;
        self.d = d;
        self.e = e;
        self.f = f;
        self.g = g;
        self.h = h;
        self.carry = second[7];
        self.total = self.total.wrapping_add(BLOCK_BYTES);
    }

    /// Returns the digests of the messages.
    pub fn finalize(self, schedules: &mut Schedules) -> [[u8; 32]; LANES]
        ensures { (j : ℕ) → j < LANES → (m : List ℕ) → HoldsLane j self m
            → slice_index_or result j [] ≡ sha256 m }
    {
        let bits = self.total.wrapping_mul(8);
        let first = to_words(&[PADDING_START; LANES]);
        let second = to_words(&[length_half(bits); LANES]);
        to_bytes(&self.hashed(schedules, &first, &second))
    }
}

// Returns the half of a block whose last bytes are the message's length in bits and one byte more, which
// is carried on and is in no block.
fn length_half(bits: u64) -> [u8; 32]
    ensures { result ≡ replicate 23 0 ++ to_be_bytes w64 bits ++ 0 ∷ [] }
{
    let mut half = [0; 32];
    half[23..31].copy_from_slice(&bits.to_be_bytes());
    half
}
