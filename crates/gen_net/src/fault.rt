//! Why numbers, edges and roots don't make a header.
ghost use Rattle.std.specs.Prelude.{◌≡◌};
ghost use Rattle.gen_net.specs.FaultNumber.{header_fault_number};

use thiserror::Error;

/// The rule that a header breaks. The texts are `H1` to `H11`.
///
/// For the numbers and edges of a network, it is the first broken rule of `H1` to `H7`, in this order. For a network,
/// its roots and a slot, it is the first of `H8` and `H11`. Bytes are tested for `H10` first, if there is a first byte,
/// then for `H9`, then for the others in their order.
#[derive(Clone, Copy, Debug, PartialEq, Eq, Error)]
pub enum HeaderFault {
    /// The number of generals is not 2 to 16.
    #[error("H1")]
    GeneralCount,
    /// An edge names a number that is no general, joins a general to itself, or comes twice. In bytes, also: its first
    /// general is not the lesser one, or it does not stand after the lesser edges.
    #[error("H2")]
    BadEdge,
    /// There are more than 8 traitors.
    #[error("H3")]
    TraitorCount,
    /// The diameter is not 1 to 15.
    #[error("H4")]
    DiameterRange,
    /// There are more than 16 rounds. Their number is m + d.
    #[error("H5")]
    RoundCount,
    /// The number of orders is not 2 to 15.
    #[error("H6")]
    OrderCount,
    /// The number of the choice is not 0 or 1.
    #[error("H7")]
    UnknownChoice,
    /// The number of roots is not the number of generals.
    #[error("H8")]
    RootCount,
    /// The bytes end before the header does.
    #[error("H9")]
    Truncated,
    /// The first byte is not a version that is known.
    #[error("H10")]
    UnknownVersion,
    /// The slot is not 0 to 3.
    #[error("H11")]
    SlotRange,
}

impl HeaderFault {
    /// Returns the number of the rule, 1 to 11.
    pub fn number(self) -> u8
        ensures { result ≡ header_fault_number self }
    {
        match self {
            HeaderFault::GeneralCount => 1,
            HeaderFault::BadEdge => 2,
            HeaderFault::TraitorCount => 3,
            HeaderFault::DiameterRange => 4,
            HeaderFault::RoundCount => 5,
            HeaderFault::OrderCount => 6,
            HeaderFault::UnknownChoice => 7,
            HeaderFault::RootCount => 8,
            HeaderFault::Truncated => 9,
            HeaderFault::UnknownVersion => 10,
            HeaderFault::SlotRange => 11,
        }
    }
}
