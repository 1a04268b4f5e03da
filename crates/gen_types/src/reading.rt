//! This module has what all readers of text and bytes share: how a reading fails, and one step of it.
ghost use Rattle.std.specs.Prelude.{◌≡◌, IfErr};
ghost use Rattle.gen_types.specs.Reading as steps;
ghost use Rattle.gen_types.specs.Spelled.{IsRead};
ghost use Rattle.gen_types.specs.declared.reading.ReadError.TheVariants.{Memory};

use std::alloc::{AllocError, AllocFailed};
use std::error::Error;
use std::fmt;

/// Why a reader refused its input: either memory was refused before a fault was reached, or the input
/// has this fault, which is its first from left to right.
#[derive(Clone, Copy, Debug, PartialEq, Eq)]
pub enum ReadError<F> {
    /// Memory was refused.
    Memory,
    /// The first fault of the input.
    Fault(F),
}

impl<F: fmt::Display> fmt::Display for ReadError<F> {
    fn fmt<W: fmt::Write>(&self, f: &mut fmt::Formatter<W>) -> fmt::Result {
        match self {
            ReadError::Memory => write!(f, "memory was refused"),
            ReadError::Fault(fault) => write!(f, "{fault}"),
        }
    }
}

impl<F: fmt::Debug + fmt::Display + Drop> Error for ReadError<F> {}

impl<F> From<AllocError> for ReadError<F> {
    ghost from_gives = { λ _ e. e ≡ Memory };

    fn from(_e: AllocError) -> ReadError<F> {
        ReadError::Memory
    }
}

impl<T: Drop, F> From<AllocFailed<T>> for ReadError<F> {
    ghost from_gives = { λ _ e. e ≡ Memory };

    fn from(_e: AllocFailed<T>) -> ReadError<F> {
        ReadError::Memory
    }
}

/// Tests one rule of a format.
///
/// # Errors
///
/// The fault if and only if the test does not hold.
pub fn check<F: Copy>(test: bool, fault: F) -> Result<(), ReadError<F>>
    ensures exact { IsRead result (steps.check test fault) }
    ensures broken { IfErr result (λ e. e ≡ ReadError.Fault fault) }
{
    if test {
        Ok(())
    } else {
        Err(ReadError::Fault(fault))
    }
}
