//! The marks before headers.
use crate::fault::HeaderFault;

/// The two marks of a format. A mark is the first four bytes, big-endian, before a header of version 1 or of version 2.
#[derive(Clone, Copy, Debug, PartialEq, Eq)]
pub struct Marks {
    /// The mark before a header of version 1.
    pub one: u32,
    /// The mark before a header of version 2.
    pub two: u32,
}

/// Why bytes don't begin with a mark and a header.
#[derive(Clone, Copy, Debug, PartialEq, Eq)]
pub enum FrontFault {
    /// The bytes end inside the mark or the header.
    Truncated,
    /// The first four bytes are neither of the marks.
    UnknownMark,
    /// The header breaks this rule. UnknownVersion also stands for a header whose version is not that of the mark.
    BadHeader(HeaderFault),
}
