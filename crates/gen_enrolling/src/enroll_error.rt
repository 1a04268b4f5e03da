//! Why an enrolment ended before its file was whole.
ghost use Rattle.std.specs.Prelude.{◌≡◌};

use crate::enroll_fault::EnrollFault;
use gen_types::ReadError;
use std::alloc::AllocError;
use thiserror::Error;

/// Why an enrolment ended before its file was whole. Its text is the line that the program writes to standard error.
#[derive(Clone, Copy, Debug, PartialEq, Eq, Error)]
pub enum EnrollError {
    /// The input is no secret, or there are too many levels.
    #[error("{0}")]
    Fault(EnrollFault),
    /// The file of roots does not begin with the bytes behind which it should go on.
    #[error("fault I5")]
    OtherRoots,
    /// Memory was refused.
    #[error("memory")]
    Memory,
    /// The file could not be written.
    #[error("write failed")]
    Write,
}

impl From<AllocError> for EnrollError {
    ghost use Rattle.gen_enrolling.specs.declared.enroll_error.EnrollError.TheVariants.{Memory};

    ghost from_gives = { λ _ e. e ≡ Memory };

    fn from(_e: AllocError) -> EnrollError {
        EnrollError::Memory
    }
}

impl From<ReadError<EnrollFault>> for EnrollError {
    ghost use Rattle.gen_enrolling.specs.Resuming.{error_of};

    ghost from_gives = { λ e error. error ≡ error_of e };

    fn from(e: ReadError<EnrollFault>) -> EnrollError {
        match e {
            ReadError::Memory => EnrollError::Memory,
            ReadError::Fault(fault) => EnrollError::Fault(fault),
        }
    }
}
