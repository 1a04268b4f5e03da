//! The faults of a line that is no line of a script.
use thiserror::Error;

/// The first fault, from left to right, of a line that is no line of a script. The word and the number of
/// fields come before the fields. The texts are `S1` to `S6`.
#[derive(Clone, Copy, Debug, PartialEq, Eq, Error)]
pub enum ScriptFault {
    /// The first word is not the word of a script line, or the number of fields is not the one that this
    /// word needs.
    #[error("S1")]
    Shape,
    /// A number is not a decimal number of at most 255 without leading zeros, or the bytes of a parcel
    /// are not an even number of hexadecimal digits, at least 2.
    #[error("S2")]
    Number,
    /// The round is not between 1 and the network's number of rounds, or it is 1 in a `bend` line.
    #[error("S3")]
    BadRound,
    /// The receiver or the sender is not a neighbour of the general whose script it is.
    #[error("S4")]
    NoNeighbour,
    /// The order is not below the number of orders.
    #[error("S5")]
    BadOrder,
    /// The path names a general twice or a number that is no general's, or it does not end with the
    /// general whose script it is. In a `make` line: the path does not begin with 0, or its length is not
    /// the round. In a `pass` line: the path has 0, or its length is not below the round.
    #[error("S6")]
    BadPath,
}
