//! The rules that a system can break.
ghost use Rattle.std.specs.Prelude.{◌≡◌};
ghost use Rattle.gen_system.specs.FaultNumber.{system_fault_number};

use gen_net::HeaderFault;
use thiserror::Error;

/// The rule that a system breaks. The texts are `U1` to `U8`; after `U3` stands the rule of the header, as in `U3 H6`.
///
/// Bytes are tested from left to right, and the first fault is returned. `U4` and `U5` are tested in this order as soon
/// as the header is read.
#[derive(Clone, Copy, Debug, PartialEq, Eq, Error)]
pub enum SystemFault {
    /// The bytes end before the system does.
    #[error("U1")]
    Truncated,
    /// The first four bytes are not `SMS1`.
    #[error("U2")]
    UnknownMark,
    /// The header breaks this rule.
    #[error("U3 {0}")]
    BadHeader(HeaderFault),
    /// The slot of the header is not 0.
    #[error("U4")]
    OtherSlot,
    /// Two nodes have equal identities.
    #[error("U5")]
    EqualIdentities,
    /// The number of the proposer is not 0 or 1.
    #[error("U6")]
    UnknownProposer,
    /// The identities have more than 20 levels.
    #[error("U7")]
    TooManyLevels,
    /// Bytes are left over behind the system.
    #[error("U8")]
    LeftOver,
}

impl SystemFault {
    /// Returns the number of the rule, 1 to 8.
    pub fn number(self) -> u8
        ensures { result ≡ system_fault_number self }
    {
        match self {
            SystemFault::Truncated => 1,
            SystemFault::UnknownMark => 2,
            SystemFault::BadHeader(_) => 3,
            SystemFault::OtherSlot => 4,
            SystemFault::EqualIdentities => 5,
            SystemFault::UnknownProposer => 6,
            SystemFault::TooManyLevels => 7,
            SystemFault::LeftOver => 8,
        }
    }
}
