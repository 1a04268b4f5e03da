//! Why a node isn't made.
ghost use Rattle.std.specs.Prelude.{◌≡◌};
ghost use Rattle.gen_node.specs.declared.node_fault.NodeFault.TheVariants.{Memory};

use std::alloc::AllocError;
use thiserror::Error;

/// Why there is no node of a header, a general, its order and its keys.
#[derive(Clone, Copy, Debug, PartialEq, Eq, Error)]
pub enum NodeFault {
    /// Memory was refused.
    #[error("memory was refused")]
    Memory,
    /// The number is none of the header's generals, or it is a commander without an order or with one that is none of
    /// the network's, or a lieutenant with an order.
    #[error("not a general of this header")]
    NoGeneral,
    /// The tree of the keys does not have the height of the header's version.
    #[error("keys of another height")]
    OtherHeight,
    /// The root of the general's keys is not the root that the header has for it.
    #[error("another root")]
    OtherRoot,
}

impl From<AllocError> for NodeFault {
    ghost from_gives = { λ _ e. e ≡ Memory };

    fn from(_e: AllocError) -> NodeFault {
        NodeFault::Memory
    }
}
