//! What the bytes of an exhibit read to.
use crate::own_log::OwnLog;
use gen_log::LogFault;

/// What an exhibit is under a header.
#[derive(Debug, Drop)]
pub enum Reading {
    /// The bytes are no log of the header's network, with this fault.
    Unreadable(LogFault),
    /// The log is of another run, or its START names another general.
    Foreign,
    /// The log says that it is the general's of this run.
    Own(OwnLog),
}
