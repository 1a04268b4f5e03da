//! The ranks by which findings are sorted.

/// The numbers of a finding's rank; a number that the finding doesn't have is 0. Ranks are ordered by the first number,
/// then by the next.
#[derive(Clone, Copy, PartialEq, Eq, PartialOrd, Ord)]
pub(crate) struct Rank {
    /// The number of the finding, 1 to 11.
    pub(crate) number: u8,
    /// The first general.
    pub(crate) general: u8,
    /// The second general, the entry, or the number of the log's fault.
    pub(crate) detail: u64,
    /// The round, or the number of the chain's fault.
    pub(crate) round: u8,
    /// The order.
    pub(crate) order: u8,
}
