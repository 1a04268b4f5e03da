//! SHA-256 (FIPS 180-4) of messages side by side, each in one lane of vectors of `LANES` words.
//!
//! It is for many messages, as the secrets of one-time signatures are. With vectors of 256 bits, eight
//! blocks side by side take about twice as long as one block alone; with vectors of 128 bits they take four
//! to five times as long. There are three shapes: a byte and 32 bytes (`images`), a byte and then 64 bytes
//! at a time (`LaneHashers`), and chains of hashes, as the links of a log are (`last_links`). Each lane's
//! digest is the SHA-256 of the lane's message, as `sha2` gives it.
//!
//! The first two shapes take and give words, so the result of one goes into the next without leaving its
//! lane. `to_words` and `to_bytes` turn bytes into words and back. Both shapes write the words of all
//! rounds into a room of the caller, `Schedules`, which one call after another can use. The pieces of
//! chains may have any lengths: a lane that is through with a message begins the next of its chain, and
//! the longest chain decides the time.
//!
//! `OneHasher` is for one long message, which comes 64 bytes for each lane at a time. The schedules of as
//! many of its blocks are made side by side, and the rounds go over one block after another. It takes about
//! four fifths of the time of `sha2`.
//!
//! The crate doesn't pay for a few messages, or for bytes that aren't at hand together: `sha2` serves
//! those. Nor does it pay on a processor with instructions for SHA, where code that uses them is faster.
#![tactic(auto)]

ghost use Rattle.std.specs.Prelude.{◌≡◌, ℕ, ◌<◌, ◌∷◌};
ghost use Rattle.sha2.specs.Sha256.{sha256};
ghost use Rattle.sha_lanes.specs.Lanes.{lane_bytes};

mod blocks;
mod chain_blocks;
mod chains;
mod halves;
mod hashers;
mod one;
mod plain;
mod progress;
mod rounds;
mod scheduling;
pub mod words;

use blocks::blocks;
pub use chains::{Chain, last_links};
pub use halves::{to_bytes, to_words};
pub use hashers::LaneHashers;
pub use one::OneHasher;
use rounds::{compress, initial_states};
pub use scheduling::Schedules;
pub use words::{LANES, Words};

// The words that pad a message of 33 bytes. The low byte of the last word is in no block.
#[rattlefmt::skip]
const PADDING_OF_33: [u32; 8] = [
    0x8000_0000, 0, 0, 0, 0, 0, 0, 0x0001_0800,
];

/// Returns the SHA-256 of one message in each lane: the byte `prefix` and then the 32 bytes of the lane.
/// What stands in the room before the call doesn't matter.
pub fn images(schedules: &mut Schedules, prefix: u8, messages: &[Words; 8]) -> [Words; 8]
    ensures { (j : ℕ) → j < LANES
        → lane_bytes j result ≡ sha256 (prefix ∷ lane_bytes j messages.now) }
{
    let [a, b, c, d, e, f, g, h] = PADDING_OF_33;
    let second = [
        Words::splat(a),
        Words::splat(b),
        Words::splat(c),
        Words::splat(d),
        Words::splat(e),
        Words::splat(f),
        Words::splat(g),
        Words::splat(h),
    ];
    let block = blocks(Words::splat(u32::from(prefix)), messages, &second);
    schedules.begin(&block);
    compress(initial_states(), schedules)
}
