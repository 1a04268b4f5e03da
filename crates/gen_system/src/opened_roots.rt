//! Roots with their openings.
use gen_identity::Opening;

/// The root of a node's set of keys, and its opening under the node's identity. They may be any: an admission tells
/// whether it holds.
#[derive(Debug, Drop)]
pub struct OpenedRoot {
    /// The root of the set.
    pub root: [u8; 32],
    /// The opening of the set.
    pub opening: Opening,
}
