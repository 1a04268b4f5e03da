//! The numbers that calls return. `embed/sm_status.h` names them for C.

/// There is an answer that doesn't say no; or what was asked for is in the room.
pub(crate) const DONE: u32 = 0;

/// There is an answer that says no.
pub(crate) const NO: u32 = 1;

/// The call may not be made so.
pub(crate) const MISUSE: u32 = 2;

/// The input has a fault.
pub(crate) const FAULT: u32 = 3;

/// Memory was refused.
pub(crate) const MEMORY: u32 = 4;

/// The room is too short.
pub(crate) const LENGTH: u32 = 5;

/// The general is none of the run's.
pub(crate) const NOBODY: u32 = 6;

/// The input is of another run than the one that is asked for.
pub(crate) const OTHER_RUN: u32 = 7;
