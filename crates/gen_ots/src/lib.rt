//! Lamport's one-time signatures over SHA-256.
//!
//! A one-time key has a secret for each bit of a digest and each value of that bit. Its public part is the
//! leaf value: the hash of the images of all its secrets. For each bit of a digest a signature shows the
//! secret that the bit names, and the image of the other secret. So anyone can compute the leaf value from
//! it (L. Lamport, "Constructing Digital Signatures from a One Way Function", SRI International, CSL-98,
//! 1979). The secrets come from ChaCha20. A key is named by a seed of 32 bytes, the height of a tree, and
//! the number of a leaf in it. Trees of the two heights take their secrets from two streams, also if they
//! come from one seed.
//!
//! What is promised: each call gives the bytes that its contract names, a key signs at most one digest,
//! and code that drops an unspent key is not accepted.
//!
//! What is not promised: that nobody else can make a signature that stands for a leaf value, or that seeds
//! and secrets stay secret (calls take time that may depend on them). Nor is it promised that memory is
//! wiped, or that one seed, height and leaf make only one key: whoever has the seed can make the key
//! again.
#![tactic(auto)]

mod chacha;
mod hashing;
mod keys;
mod lanes;
mod secrets;
mod sharing;
mod side_by_side;
mod signatures;
pub mod sizes;

pub use keys::{OneTimeKey, leaf_values};
pub use sharing::HeldBytes;
pub use side_by_side::{SignedDigest, images_of_lanes};
pub use signatures::{OtsSig, SigRoom, image_of};
