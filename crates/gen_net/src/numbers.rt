//! The numbers of a network, as they are given by a caller or by bytes.

/// The numbers that a network is made of besides its edges, in the order of a header's bytes.
///
/// They may be out of range: `Net::new` says which of them make a network.
#[derive(Clone, Copy, Debug, PartialEq, Eq)]
pub struct NetNumbers {
    /// The number of generals, n.
    pub generals: u8,
    /// The number of traitors that a run is planned for, m.
    pub traitors: u8,
    /// The diameter that a run is planned for, d.
    pub diameter: u8,
    /// The number of orders, q.
    pub orders: u8,
    /// The number of the choice.
    pub choice: u8,
}
