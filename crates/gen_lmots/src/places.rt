//! The places of keys.

/// The place of a one-time key, which is part of each text that is hashed for the key.
#[derive(Clone, Copy, Debug)]
pub struct KeyPlace {
    /// The identifier of the key's tree: I.
    pub identifier: [u8; 16],
    /// The number of the key's leaf: q.
    pub number: u32,
}
