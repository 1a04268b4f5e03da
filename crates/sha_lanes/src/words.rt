//! Operations on words side by side, one in each lane, and the functions of FIPS 180-4, section 4.1.2, made
//! of them.
ghost use Rattle.std.specs.Prelude.{◌≡◌, ℕ, ◌<◌, ◌*◌, ◌/◌, ◌%◌, ◌^◌, bit_and, bit_or, bit_xor, slice_index};
ghost use Rattle.std.specs.Int.{w32, rotate_right};
ghost use Rattle.sha2.specs.Sha256.{add32, big_sigma0, big_sigma1, ch, maj, small_sigma0, small_sigma1};

use std::simd::Simd;

/// The number of lanes: of messages, blocks or chains that are hashed side by side.
pub const LANES: usize = 8;

/// A vector with one word in each lane.
pub type Words = Simd<u32, LANES>;

/// Returns the sums of the words in each lane, modulo 2^32.
#[inline(always)]
pub fn add(x: Words, y: Words) -> Words
    ensures { (j : ℕ) → j < LANES → slice_index result j ≡ add32 (slice_index x j) (slice_index y j) }
{
    x + y
}

#[inline(always)]
fn xor(x: Words, y: Words) -> Words
    ensures { (j : ℕ) → j < LANES → slice_index result j ≡ bit_xor (slice_index x j) (slice_index y j) }
{
    x ^ y
}

#[inline(always)]
fn and(x: Words, y: Words) -> Words
    ensures { (j : ℕ) → j < LANES → slice_index result j ≡ bit_and (slice_index x j) (slice_index y j) }
{
    x & y
}

/// Returns for each lane the bits that at least one of its two words has.
#[inline(always)]
pub(crate) fn or(x: Words, y: Words) -> Words
    ensures { (j : ℕ) → j < LANES → slice_index result j ≡ bit_or (slice_index x j) (slice_index y j) }
{
    x | y
}

/// Returns the words shifted towards their low end by `count` bits. The bits that leave a word are
/// dropped.
#[inline(always)]
pub fn shift_right(x: Words, count: u32) -> Words
    requires { count < 32 }
    ensures { (j : ℕ) → j < LANES → slice_index result j ≡ slice_index x j / 2 ^ count }
{
    x >> Words::splat(count)
}

/// Returns the words shifted towards their high end by `count` bits. The bits that leave a word are
/// dropped.
#[inline(always)]
pub fn shift_left(x: Words, count: u32) -> Words
    requires { count < 32 }
    ensures { (j : ℕ) → j < LANES → slice_index result j ≡ slice_index x j * 2 ^ count % 2 ^ 32 }
{
    x << Words::splat(count)
}

// Returns the words, each rotated to the right: the `count` bits that leave it at the low end come in at
// the high end.
#[inline(always)]
fn rotate_right(x: Words, count: u32) -> Words
    requires some { 0 < count }
    requires fits { count < 32 }
    ensures { (j : ℕ) → j < LANES → slice_index result j ≡ rotate_right w32 (slice_index x j) count }
{
    (x >> Words::splat(count)) | (x << Words::splat(32 - count))
}

/// Returns Ch: at each place the bit of `y` if that of `x` is 1, and the bit of `z` if it is 0. This form
/// takes one operation less than the standard's.
#[inline(always)]
pub(crate) fn ch(x: Words, y: Words, z: Words) -> Words
    ensures { (j : ℕ) → j < LANES
        → slice_index result j ≡ ch (slice_index x j) (slice_index y j) (slice_index z j) }
{
    xor(z, and(x, xor(y, z)))
}

/// Returns Maj: the bits that at least two of the three words have. What is `x ^ y` in one round is
/// `y ^ z` in the next, so it is computed once.
#[inline(always)]
pub(crate) fn maj(x: Words, y: Words, z: Words) -> Words
    ensures { (j : ℕ) → j < LANES
        → slice_index result j ≡ maj (slice_index x j) (slice_index y j) (slice_index z j) }
{
    xor(y, and(xor(x, y), xor(y, z)))
}

/// Returns the upper case Σ 0.
#[inline(always)]
pub(crate) fn big_sigma0(x: Words) -> Words
    ensures { (j : ℕ) → j < LANES → slice_index result j ≡ big_sigma0 (slice_index x j) }
{
    xor(
        xor(rotate_right(x, 2), rotate_right(x, 13)),
        rotate_right(x, 22),
    )
}

/// Returns the upper case Σ 1.
#[inline(always)]
pub(crate) fn big_sigma1(x: Words) -> Words
    ensures { (j : ℕ) → j < LANES → slice_index result j ≡ big_sigma1 (slice_index x j) }
{
    xor(
        xor(rotate_right(x, 6), rotate_right(x, 11)),
        rotate_right(x, 25),
    )
}

/// Returns the lower case σ 0.
#[inline(always)]
pub(crate) fn small_sigma0(x: Words) -> Words
    ensures { (j : ℕ) → j < LANES → slice_index result j ≡ small_sigma0 (slice_index x j) }
{
    xor(
        xor(rotate_right(x, 7), rotate_right(x, 18)),
        shift_right(x, 3),
    )
}

/// Returns the lower case σ 1.
#[inline(always)]
pub(crate) fn small_sigma1(x: Words) -> Words
    ensures { (j : ℕ) → j < LANES → slice_index result j ≡ small_sigma1 (slice_index x j) }
{
    xor(
        xor(rotate_right(x, 17), rotate_right(x, 19)),
        shift_right(x, 10),
    )
}
