//! The 64 rounds over one block of each message (FIPS 180-4, section 6.2.2).
ghost use Rattle.std.specs.Prelude.{◌≡◌, ℕ, ◌<◌, ◌+◌, List, slice_index, take};
ghost use Rattle.sha2.specs.Sha256.{compress, initial_hash_256, round_constants, rounds};
ghost use Rattle.sha_lanes.specs.Lanes.{HasWords, lane, state};

use crate::scheduling::Schedules;
use crate::words::{LANES, Words, add, big_sigma0, big_sigma1, ch, maj};

/// The number of words of a block.
pub const BLOCK_WORDS: usize = 16;

/// The number of rounds over a block, each of which has a word of its own.
pub const ROUNDS: usize = 64;

// A row of equal constants for each round, one for each lane.
struct RoundConstants {
    // The value means nothing. The field aligns the rows to 16 bytes, so that no row lies on two lines of
    // a cache.
    alignment: u128,
    rows: [[u32; LANES]; ROUNDS],
}

// K: the first 32 bits of the fractional parts of the cube roots of the first 64 primes (FIPS 180-4,
// section 4.2.2). Each stands once for each lane, so that a round adds the row as it is read.
#[rattlefmt::skip]
static ROUND_CONSTANTS: RoundConstants = RoundConstants { alignment: 0, rows: [
    [0x428a_2f98; LANES], [0x7137_4491; LANES], [0xb5c0_fbcf; LANES], [0xe9b5_dba5; LANES],
    [0x3956_c25b; LANES], [0x59f1_11f1; LANES], [0x923f_82a4; LANES], [0xab1c_5ed5; LANES],
    [0xd807_aa98; LANES], [0x1283_5b01; LANES], [0x2431_85be; LANES], [0x550c_7dc3; LANES],
    [0x72be_5d74; LANES], [0x80de_b1fe; LANES], [0x9bdc_06a7; LANES], [0xc19b_f174; LANES],
    [0xe49b_69c1; LANES], [0xefbe_4786; LANES], [0x0fc1_9dc6; LANES], [0x240c_a1cc; LANES],
    [0x2de9_2c6f; LANES], [0x4a74_84aa; LANES], [0x5cb0_a9dc; LANES], [0x76f9_88da; LANES],
    [0x983e_5152; LANES], [0xa831_c66d; LANES], [0xb003_27c8; LANES], [0xbf59_7fc7; LANES],
    [0xc6e0_0bf3; LANES], [0xd5a7_9147; LANES], [0x06ca_6351; LANES], [0x1429_2967; LANES],
    [0x27b7_0a85; LANES], [0x2e1b_2138; LANES], [0x4d2c_6dfc; LANES], [0x5338_0d13; LANES],
    [0x650a_7354; LANES], [0x766a_0abb; LANES], [0x81c2_c92e; LANES], [0x9272_2c85; LANES],
    [0xa2bf_e8a1; LANES], [0xa81a_664b; LANES], [0xc24b_8b70; LANES], [0xc76c_51a3; LANES],
    [0xd192_e819; LANES], [0xd699_0624; LANES], [0xf40e_3585; LANES], [0x106a_a070; LANES],
    [0x19a4_c116; LANES], [0x1e37_6c08; LANES], [0x2748_774c; LANES], [0x34b0_bcb5; LANES],
    [0x391c_0cb3; LANES], [0x4ed8_aa4a; LANES], [0x5b9c_ca4f; LANES], [0x682e_6ff3; LANES],
    [0x748f_82ee; LANES], [0x78a5_636f; LANES], [0x84c8_7814; LANES], [0x8cc7_0208; LANES],
    [0x90be_fffa; LANES], [0xa450_6ceb; LANES], [0xbef9_a3f7; LANES], [0xc671_78f2; LANES],
]};

/// H: the first 32 bits of the fractional parts of the square roots of the first eight primes (FIPS 180-4,
/// section 5.3.3).
pub const INITIAL_HASH: [u32; 8] = [
    0x6a09_e667,
    0xbb67_ae85,
    0x3c6e_f372,
    0xa54f_f53a,
    0x510e_527f,
    0x9b05_688c,
    0x1f83_d9ab,
    0x5be0_cd19,
];

/// Returns the initial hash value, in each lane.
#[inline(always)]
pub fn initial_states() -> [Words; 8]
    ensures { (j : ℕ) → j < LANES → state j result ≡ initial_hash_256 }
{
    let [a, b, c, d, e, f, g, h] = INITIAL_HASH;
    [
        Words::splat(a),
        Words::splat(b),
        Words::splat(c),
        Words::splat(d),
        Words::splat(e),
        Words::splat(f),
        Words::splat(g),
        Words::splat(h),
    ]
}

/// Returns the constant of round `t`, in each lane.
#[inline(always)]
pub fn constant_at(t: usize) -> Words
    requires { t < ROUNDS }
    ensures { (j : ℕ) → j < LANES → slice_index result j ≡ slice_index round_constants t }
{
    Words::from_array(ROUND_CONSTANTS.rows[t])
}

// Returns the working variables of each lane after round `t`, with its constant and its word (FIPS 180-4,
// section 6.2.2, step 3).
#[inline(always)]
fn round_at(schedules: &Schedules, v: [Words; 8], t: usize) -> [Words; 8]
    requires { t < ROUNDS }
    ensures { (j : ℕ) → j < LANES → (h : List ℕ) → state j v ≡ rounds h (lane j schedules.now) t
        → state j result ≡ rounds h (lane j schedules.now) (t + 1) }
{
    let [a, b, c, d, e, f, g, h] = v;
    let mixed = add(add(h, big_sigma1(e)), ch(e, f, g));
    let temp1 = add(add(mixed, constant_at(t)), schedules.word(t));
    let temp2 = add(big_sigma0(a), maj(a, b, c));
    [add(temp1, temp2), a, b, c, add(d, temp1), e, f, g]
}

/// Returns the hash values after one block more of each message. The schedules must have been begun with
/// the words of these blocks.
///
/// It is not inlined: one copy serves all callers, so that it stays in the processor's caches.
#[inline(never)]
pub fn compress(start: [Words; 8], schedules: &mut Schedules) -> [Words; 8]
    ensures { (j : ℕ) → j < LANES → (b : List ℕ) → HasWords j (take 16 schedules.old) b
        → state j result ≡ compress (state j start) b }
{
    schedules.extend();
    let mut v = start;
    // After eight rounds each variable is in its place again.
    'rounds: for turn in 0..ROUNDS / 8 {
        v = round_at(schedules, v, 8 * turn);
        v = round_at(schedules, v, 8 * turn + 1);
        v = round_at(schedules, v, 8 * turn + 2);
        v = round_at(schedules, v, 8 * turn + 3);
        v = round_at(schedules, v, 8 * turn + 4);
        v = round_at(schedules, v, 8 * turn + 5);
        v = round_at(schedules, v, 8 * turn + 6);
        v = round_at(schedules, v, 8 * turn + 7);
    }
    [
        add(start[0], v[0]),
        add(start[1], v[1]),
        add(start[2], v[2]),
        add(start[3], v[3]),
        add(start[4], v[4]),
        add(start[5], v[5]),
        add(start[6], v[6]),
        add(start[7], v[7]),
    ]
}
