//! The sizes of identities.

/// The number of levels of the tallest tree of an identity, 20.
pub const MOST_LEVELS: u8 = 20;

/// The most sets of an identity, 1,048,576.
pub const MOST_SETS: u32 = 1 << MOST_LEVELS;

/// The most siblings of an opening.
pub const MOST_SIBLINGS: usize = MOST_LEVELS as usize;

/// The number of bytes of a state that is kept: its number, the state, and the id of its system.
pub const STATE_BYTES: usize = 68;

/// The number of bytes of a text that is hashed for a leaf.
pub const LEAF_TEXT_BYTES: usize = 33;

/// The number of bytes of a text that is hashed for a node above two nodes.
pub const NODE_TEXT_BYTES: usize = 65;
