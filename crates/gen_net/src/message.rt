//! Messages without signatures.
use gen_types::{GeneralNo, OrderNo, Path};

/// A message: one general sends another the chain of an order and a path, in the round that is the path's length. It is
/// the message `v:0:j1:..:jk` of section 4 of the paper of 1982, without its signatures.
#[derive(Clone, Copy, Debug, PartialEq, Eq)]
pub struct Message {
    /// The general that sends the message.
    pub from: GeneralNo,
    /// The general that receives the message.
    pub to: GeneralNo,
    /// The chain's order.
    pub order: OrderNo,
    /// The chain's path: the generals that signed, in order; the sender is the last.
    pub path: Path,
}
