//! Messages as a picture draws them.
use gen_net::Message;

/// Which logs have a message: those of its sender and of its receiver.
#[derive(Clone, Copy, Debug, PartialEq, Eq)]
pub enum ToldBy {
    /// Logs of both have it.
    Both,
    /// Only a log of the sender has it.
    Sender,
    /// Only a log of the receiver has it.
    Receiver,
}

/// A message that some shown log has.
#[derive(Clone, Copy, Debug)]
pub struct Arrow {
    /// The message.
    pub message: Message,
    /// Which logs have it.
    pub told: ToldBy,
}
