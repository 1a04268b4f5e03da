//! Tells the order that receipts show, for a caller that acts on it.
ghost use Rattle.std.specs.Prelude.{IsTrue, ◌≡◌, ◌↔◌};
ghost use Rattle.gen_net.specs.Header.{run_id_of};
ghost use Rattle.sm_node.specs.Faults as numbers;
ghost use Rattle.sm_node.specs.Shown.{TellsShown, shown_status};

use crate::starting::NO_ORDER;
use crate::told::{NO, OTHER};
use gen_net::Header;
use gen_receipt::{ReceiptFault, only_order, read_receipts};
use gen_types::ReadError;
use std::alloc::Global;

/// What a call answers that tells the order that receipts show. The call returns its number.
#[derive(Clone, Copy, Debug, PartialEq, Eq)]
pub enum ShownReply {
    /// Exactly one order is shown, and it is told.
    Shown,
    /// No order is shown, or several are.
    NotShown,
    /// The bytes have a fault, whose number is told.
    Fault,
    /// Memory was refused.
    Memory,
    /// The receipts are of another run.
    OtherRun,
}

impl ShownReply {
    /// Returns the number that the call returns.
    pub fn status(self) -> u32
        ensures { result ≡ shown_status self }
    {
        match self {
            ShownReply::Shown => 0,
            ShownReply::NotShown => NO,
            ShownReply::Fault => 3,
            ShownReply::Memory => 4,
            ShownReply::OtherRun => OTHER,
        }
    }
}

/// Returns the number of a fault of receipts: 61, 62, 64 or 65, or that of the fault of a header.
fn receipt_number(fault: ReceiptFault) -> u32
    ensures { result ≡ numbers.receipt_number fault }
{
    match fault {
        ReceiptFault::Truncated => 61,
        ReceiptFault::UnknownMark => 62,
        ReceiptFault::BadHeader(inner) => u32::from(inner.number()),
        ReceiptFault::OutOfRange => 64,
        ReceiptFault::OtherRun => 65,
    }
}

/// Returns whether a header is that of a run.
fn is_of_run(header: &Header, run_id: &[u8; 32]) -> bool
    ensures { IsTrue result ↔ (run_id_of header.now ≡ run_id.now) }
{
    header.run_id() == run_id
}

/// Tells the one order that receipts of a run show, or why none is told.
pub(crate) fn tell_shown(
    alloc: Global,
    run_id: &[u8; 32],
    bytes: &[u8],
    order: &mut u32,
    fault: &mut u32,
) -> ShownReply
    ensures { TellsShown run_id.now bytes.now order.new fault.new result }
{
    *order = NO_ORDER;
    *fault = 0;
    let file = match read_receipts(alloc, bytes) {
        Ok(file) => file,
        Err(ReadError::Memory) => return ShownReply::Memory,
        Err(ReadError::Fault(broken)) => {
            *fault = receipt_number(broken);
            return ShownReply::Fault;
        }
    };
    if !is_of_run(&file.header, run_id) {
        return ShownReply::OtherRun;
    }
    match only_order(&file.header, file.receipts.as_slice()) {
        Some(only) => {
            *order = u32::from(only.get());
            ShownReply::Shown
        }
        None => ShownReply::NotShown,
    }
}
