//! The rules that bytes of roots can break.
ghost use Rattle.std.specs.Prelude.{◌≡◌};
ghost use Rattle.gen_enroll.specs.FaultNumber.{roots_fault_number};

use thiserror::Error;

/// The rule that a file of roots breaks. The texts are `I1` to `I4`.
///
/// Bytes are tested in this order: fewer than four (`I1`), `I2`, no fifth byte (`I1`), `I3`, fewer bytes than that many
/// roots take (`I1`), `I4`.
#[derive(Clone, Copy, Debug, PartialEq, Eq, Error)]
pub enum RootsFault {
    /// The bytes end before the file does.
    #[error("I1")]
    Truncated,
    /// The first four bytes are neither `SMI1` nor `SMI2`.
    #[error("I2")]
    UnknownMark,
    /// The number of levels is above 20.
    #[error("I3")]
    TooManyLevels,
    /// Bytes are left over after the last root.
    #[error("I4")]
    LeftOver,
}

impl RootsFault {
    /// Returns the number of the rule, 1 to 4.
    pub fn number(self) -> u8
        ensures { result ≡ roots_fault_number self }
    {
        match self {
            RootsFault::Truncated => 1,
            RootsFault::UnknownMark => 2,
            RootsFault::TooManyLevels => 3,
            RootsFault::LeftOver => 4,
        }
    }
}
