//! Operations on words side by side, each in a lane of its own.
ghost use Rattle.std.specs.Prelude.{◌≡◌, ℕ, ◌<◌, false, if◌then◌else◌, slice_index, slice_index_or};
ghost use Rattle.std.specs.Int.{w32, swap_bytes};

use sha_lanes::words::{add, shift_left, shift_right};
use sha_lanes::{LANES, Words};

/// Returns the words with the four bytes of each in reverse order.
#[inline(always)]
pub fn swap_bytes(x: Words) -> Words
    ensures { (j : ℕ) → j < LANES → slice_index result j ≡ swap_bytes w32 (slice_index x j) }
{
    let lowest = shift_left(x, 24);
    let second = shift_right(shift_left(shift_right(x, 8), 24), 8);
    let third = shift_right(shift_left(shift_right(x, 16), 24), 16);
    let highest = shift_right(x, 24);
    add(add(lowest, second), add(third, highest))
}

/// Returns the words of `first` in the lanes where `ones` has `true`, and those of `zeroth` in the others.
#[inline(always)]
pub fn select(ones: &[bool; LANES], zeroth: Words, first: Words) -> Words
    ensures { (j : ℕ) → j < LANES → slice_index result j
        ≡ (if slice_index_or ones.now j false then slice_index first j else slice_index zeroth j) }
{
    let mut bits = [0; LANES];
    'lanes: for j in 0..LANES {
        bits[j] = u32::from(ones[j]);
    }
    Words::from_array(bits)
        .simd_eq(Words::splat(1))
        .select(first, zeroth)
}
