//! The rules that a list of scenarios can break, so that it is no campaign.
use thiserror::Error;

/// The first rule, in this order, that a list of scenarios breaks. The texts are `X1` to `X3`.
#[derive(Clone, Copy, Debug, PartialEq, Eq, Error)]
pub enum SeriesFault {
    /// There are not 1 to 4 scenarios.
    #[error("X1")]
    RunCount,
    /// A scenario is of version 1, or has another number of generals or another master seed than the first.
    #[error("X2")]
    Unlike,
    /// A slot is not greater than the slot before it.
    #[error("X3")]
    SlotOrder,
}
