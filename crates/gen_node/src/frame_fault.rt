//! Why bytes are not the awaited frame.
ghost use Rattle.std.specs.Prelude.{◌≡◌};
ghost use Rattle.gen_node.specs.FaultNumber.{fault_number};

use thiserror::Error;

/// Why bytes that were handed in for a neighbour aren't taken as the neighbour's frame of this round. The texts are
/// `F1` to `F8`.
///
/// Whether a frame of the neighbour is awaited is tested first, then the bytes from left to right, and then which frame
/// it is. The first fault is answered.
#[derive(Clone, Copy, Debug, PartialEq, Eq, Error)]
pub enum FrameFault {
    /// No frame of this general is awaited: no round is open, or the general is no neighbour.
    #[error("F1")]
    NotAwaited,
    /// The neighbour's frame of this round was taken before.
    #[error("F2")]
    Twice,
    /// The bytes end before the frame does.
    #[error("F3")]
    Truncated,
    /// The first four bytes are not the mark `SMF1`.
    #[error("F4")]
    UnknownMark,
    /// Bytes are left over after the frame.
    #[error("F5")]
    LeftOver,
    /// The frame is of another run: its run id is another.
    #[error("F6")]
    OtherRun,
    /// The frame is of another round.
    #[error("F7")]
    OtherRound,
    /// The frame's sender is not this neighbour, or its receiver is not this node.
    #[error("F8")]
    OtherEnds,
}

impl FrameFault {
    /// Returns the number of the rule, 1 to 8.
    pub fn number(self) -> u8
        ensures { result ≡ fault_number self }
    {
        match self {
            FrameFault::NotAwaited => 1,
            FrameFault::Twice => 2,
            FrameFault::Truncated => 3,
            FrameFault::UnknownMark => 4,
            FrameFault::LeftOver => 5,
            FrameFault::OtherRun => 6,
            FrameFault::OtherRound => 7,
            FrameFault::OtherEnds => 8,
        }
    }
}
