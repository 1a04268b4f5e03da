//! Sides of a message.

/// The side on which a log tells a message.
#[derive(Clone, Copy)]
pub enum Side {
    /// The sender's log, by a SEND.
    Sender,
    /// The receiver's log, by a RECV.
    Receiver,
}
