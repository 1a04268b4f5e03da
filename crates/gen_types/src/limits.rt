//! The limits of this profile of the algorithm.

/// The fewest generals of a network.
pub const FEWEST_GENERALS: u8 = 2;

/// The most generals of a network.
pub const MOST_GENERALS: u8 = 16;

/// `MOST_GENERALS` as the length of an array.
pub(crate) const GENERALS: usize = MOST_GENERALS as usize;

/// The most edges of a network: all pairs of its generals.
pub const MOST_EDGES: usize = 120;

/// The greatest number of traitors, m, that a run is planned for.
pub const MOST_TRAITORS: u8 = 8;

/// The least diameter, d, that a run is planned for.
pub const LEAST_DIAMETER: u8 = 1;

/// The greatest diameter, d, that a run is planned for.
pub const GREATEST_DIAMETER: u8 = 15;

/// The most rounds of a run, m + d.
pub const MOST_ROUNDS: u8 = 16;

/// The fewest orders, q, that generals may choose from.
pub const FEWEST_ORDERS: u8 = 2;

/// The most orders, q, that generals may choose from. A run has 16 leaves of a general's tree of keys: one
/// for each order, and the last for the general's log.
pub const MOST_ORDERS: u8 = 15;
