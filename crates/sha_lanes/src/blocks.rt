//! The words of the blocks of messages, one message in each lane.
//!
//! A message is one byte and then halves of blocks, 32 bytes each. So a block is the byte before it, one
//! half, and 31 bytes of the next half. The last byte of that half is carried to the next block.
ghost use Rattle.std.specs.Prelude.{◌≡◌, ℕ, ◌<◌, ◌%◌, ◌^◌, slice_index};
ghost use Rattle.sha_lanes.specs.Lanes.{HasWords, block, lane_bytes, seam};

use crate::words::{LANES, Words, or, shift_left, shift_right};

// Returns for each lane the word whose high byte is the low byte of `before`, and whose other bytes are
// the three high bytes of `after`.
#[inline(always)]
fn joined(before: Words, after: Words) -> Words
    ensures { (j : ℕ) → j < LANES → slice_index result j ≡ seam (slice_index before j) (slice_index after j) }
{
    or(shift_left(before, 24), shift_right(after, 8))
}

/// Returns the words of the blocks, one block in each lane. A block is a carried byte, a first half, and
/// all but the last byte of a second half. The carried byte is the low byte of the lane's word.
#[inline(always)]
pub fn blocks(carry: Words, first: &[Words; 8], second: &[Words; 8]) -> [Words; 16]
    ensures { (j : ℕ) → j < LANES → HasWords j result (block (slice_index carry j % 2 ^ 8)
        (lane_bytes j first.now) (lane_bytes j second.now)) }
{
    [
        joined(carry, first[0]),
        joined(first[0], first[1]),
        joined(first[1], first[2]),
        joined(first[2], first[3]),
        joined(first[3], first[4]),
        joined(first[4], first[5]),
        joined(first[5], first[6]),
        joined(first[6], first[7]),
        joined(first[7], second[0]),
        joined(second[0], second[1]),
        joined(second[1], second[2]),
        joined(second[2], second[3]),
        joined(second[3], second[4]),
        joined(second[4], second[5]),
        joined(second[5], second[6]),
        joined(second[6], second[7]),
    ]
}
