//! The rules that bytes of receipts can break.
ghost use Rattle.std.specs.Prelude.{◌≡◌};
ghost use Rattle.gen_receipt.specs.FaultNumber.{receipt_fault_number};

use gen_net::HeaderFault;
use thiserror::Error;

/// The rule that bytes of receipts break. The texts are `Q1` to `Q5`; after `Q3` stands the rule of the header, as in
/// `Q3 H6`.
///
/// Bytes are tested from left to right, and the first fault is returned.
#[derive(Clone, Copy, Debug, PartialEq, Eq, Error)]
pub enum ReceiptFault {
    /// The bytes end before a receipt does.
    #[error("Q1")]
    Truncated,
    /// The first four bytes of a receipt are neither `SMR1` nor `SMR2`.
    #[error("Q2")]
    UnknownMark,
    /// The header breaks this rule. It is also `H10` if the header's version is not that of the mark.
    #[error("Q3 {0}")]
    BadHeader(HeaderFault),
    /// A number is not one of the network's: the general is n or more, or the order or a member of the set is q or more.
    #[error("Q4")]
    OutOfRange,
    /// A receipt behind the first has another header than the first.
    #[error("Q5")]
    OtherRun,
}

impl ReceiptFault {
    /// Returns the number of the rule, 1 to 5.
    pub fn number(self) -> u8
        ensures { result ≡ receipt_fault_number self }
    {
        match self {
            ReceiptFault::Truncated => 1,
            ReceiptFault::UnknownMark => 2,
            ReceiptFault::BadHeader(_) => 3,
            ReceiptFault::OutOfRange => 4,
            ReceiptFault::OtherRun => 5,
        }
    }
}
