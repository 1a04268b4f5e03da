//! The rules that bytes of evidence can break.
use gen_net::HeaderFault;
use thiserror::Error;

/// The rule that bytes of evidence break. The texts are `V1` to `V6`; after `V3` stands the rule of the header, as in
/// `V3 H6`.
///
/// Bytes are tested from left to right, and the first fault is returned. A log that doesn't read is no fault.
#[derive(Clone, Copy, Debug, PartialEq, Eq, Error)]
pub enum EvidenceFault {
    /// The bytes end before the evidence does.
    #[error("V1")]
    Truncated,
    /// The first four bytes are neither `SME1` nor `SME2`.
    #[error("V2")]
    UnknownMark,
    /// The header breaks this rule. It is also `H10` if the header's version is not that of the mark.
    #[error("V3 {0}")]
    BadHeader(HeaderFault),
    /// A number is out of range. The accused is n or more, or the kind is none of 1 to 5, or is 5 under a header of
    /// version 1. Or the first byte of a text is neither 1 nor 2. Or an order or a path is none of the network's.
    #[error("V4")]
    OutOfRange,
    /// Bytes are left over after the evidence.
    #[error("V5")]
    LeftOver,
    /// The run of the second header doesn't use the leaves of the first one. Its slot, its number of generals or its
    /// roots differ, or the headers are the same.
    #[error("V6")]
    OtherLeaves,
}
