//! The rules that an admission can break.
ghost use Rattle.std.specs.Prelude.{◌≡◌};
ghost use Rattle.gen_system.specs.FaultNumber.{admission_fault_number};

use crate::system_fault::SystemFault;
use thiserror::Error;

/// The rule that an admission breaks. The texts are `A1` to `A6`; after `A3` stands the rule of the system, as in `A3 U6`
/// or `A3 U3 H6`.
///
/// Bytes are tested from left to right, and the first fault is returned.
#[derive(Clone, Copy, Debug, PartialEq, Eq, Error)]
pub enum AdmissionFault {
    /// The bytes end before the admission does.
    #[error("A1")]
    Truncated,
    /// The first four bytes are not `SMA1`.
    #[error("A2")]
    UnknownMark,
    /// The system breaks this rule.
    #[error("A3 {0}")]
    BadSystem(SystemFault),
    /// The number of the set is 2 to the power of the levels, or more.
    #[error("A4")]
    SetRange,
    /// An opening has not one sibling for each level.
    #[error("A5")]
    OtherLevels,
    /// Bytes are left over behind the admission.
    #[error("A6")]
    LeftOver,
}

impl AdmissionFault {
    /// Returns the number of the rule, 1 to 6.
    pub fn number(self) -> u8
        ensures { result ≡ admission_fault_number self }
    {
        match self {
            AdmissionFault::Truncated => 1,
            AdmissionFault::UnknownMark => 2,
            AdmissionFault::BadSystem(_) => 3,
            AdmissionFault::SetRange => 4,
            AdmissionFault::OtherLevels => 5,
            AdmissionFault::LeftOver => 6,
        }
    }
}
