//! Words in lanes, and the bytes that they stand for.
ghost use Rattle.std.specs.Prelude.{◌≡◌, ℕ, ◌<◌, ◌*◌, [], length, take, drop, slice_index, slice_index_or};
ghost use Rattle.std.specs.Int.{w32, to_be_bytes};
ghost use Rattle.sha2.specs.Sha256.{digest_bytes};
ghost use Rattle.sha_lanes.specs.Lanes.{lane_bytes, state};

use crate::words::{LANES, Words};

// Returns word `i` of 32 bytes, high byte first.
#[inline(always)]
fn word(half: &[u8; 32], i: usize) -> u32
    requires { i < 8 }
    ensures width { length half.now ≡ 32 }
    ensures value { to_be_bytes w32 result ≡ take 4 (drop (4 * i) half.now) }
{
    let at = 4 * i;
    u32::from_be_bytes([half[at], half[at + 1], half[at + 2], half[at + 3]])
}

// Returns word `i` of the 32 bytes of each lane.
#[inline(always)]
fn words(halves: &[[u8; 32]; LANES], i: usize) -> Words
    requires { i < 8 }
    ensures width { (j : ℕ) → j < LANES → length (slice_index_or halves.now j []) ≡ 32 }
    ensures value { (j : ℕ) → j < LANES → to_be_bytes w32 (slice_index result j)
        ≡ take 4 (drop (4 * i) (slice_index_or halves.now j [])) }
{
    let mut lanes = [0; LANES];
    'lanes: for j in 0..LANES {
        lanes[j] = word(&halves[j], i);
    }
    Words::from_array(lanes)
}

/// Returns the 32 bytes of each lane as eight words of four bytes, high byte first.
pub fn to_words(halves: &[[u8; 32]; LANES]) -> [Words; 8]
    ensures { (j : ℕ) → j < LANES → lane_bytes j result ≡ slice_index_or halves.now j [] }
{
    [
        words(halves, 0),
        words(halves, 1),
        words(halves, 2),
        words(halves, 3),
        words(halves, 4),
        words(halves, 5),
        words(halves, 6),
        words(halves, 7),
    ]
}

/// Returns the 32 bytes that each lane's words stand for, high byte first.
pub fn to_bytes(words: &[Words; 8]) -> [[u8; 32]; LANES]
    ensures width { length result ≡ LANES }
    ensures value { (j : ℕ) → j < LANES → slice_index_or result j [] ≡ lane_bytes j words.now }
{
    let mut halves = [[0; 32]; LANES];
    'lanes: for j in 0..LANES {
        halves[j] = bytes(&[
            words[0].to_array()[j],
            words[1].to_array()[j],
            words[2].to_array()[j],
            words[3].to_array()[j],
            words[4].to_array()[j],
            words[5].to_array()[j],
            words[6].to_array()[j],
            words[7].to_array()[j],
        ]);
    }
    halves
}

// Returns the bytes of eight words, high byte first. As a call of its own it is compiled to vector
// instructions, and inlined it isn't.
#[inline(never)]
fn bytes(words: &[u32; 8]) -> [u8; 32]
    ensures { result ≡ digest_bytes words.now 8 }
{
    let mut bytes = [0; 32];
    'words: for i in 0..8 {
        bytes[4 * i..4 * i + 4].copy_from_slice(&words[i].to_be_bytes());
    }
    bytes
}
