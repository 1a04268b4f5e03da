//! The sizes of files of roots.

/// The number of bytes of the head of a file of roots: its mark, and the number of levels.
pub const HEAD_BYTES: usize = 5;
