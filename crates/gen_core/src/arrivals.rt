//! What arrives at a general.
use gen_types::{GeneralNo, OrderNo, Path};

/// A chain that arrived at a general in a round: its sender, its order and its path.
#[derive(Clone, Copy, Debug, PartialEq, Eq)]
pub struct Seen {
    /// The general that sent it.
    pub from: GeneralNo,
    /// The chain's order.
    pub order: OrderNo,
    /// The chain's path: the generals that signed it; the sender is the last.
    pub path: Path,
}
