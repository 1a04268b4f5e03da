//! Where a node stands in a round.

/// Where a node stands between calls. A node sends its frames, and hears those of its neighbours, in ascending order of
/// the neighbours. If memory is refused, it stands in the midst of that and can go on.
#[derive(Clone, Copy, Debug, PartialEq, Eq)]
pub enum Stage {
    /// No round has begun, or the last one has ended.
    Between,
    /// A round begins: the frames to the generals below `next` are made.
    Sending {
        /// The first general to which, if it is a neighbour, a frame is still to be made.
        next: u8,
    },
    /// A round has begun: frames are handed out and in.
    Open,
    /// A round ends: the generals below `next` were heard.
    Hearing {
        /// The first general that, if it is a neighbour, is still to be heard.
        next: u8,
    },
}
