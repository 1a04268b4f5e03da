//! What is left of a node that has ended, and its receipt.
ghost use Rattle.std.specs.Prelude.{◌≡◌, IfOk};
ghost use Rattle.sm_node.specs.EndedNode.{IsOwnReceipt, IsSealedLog};

use gen_log::SealedLog;
use gen_log::laws::logs_are_read_again;
use gen_net::Header;
use gen_receipt::laws::receipts_are_complete;
use gen_receipt::{receipt_of_bytes, write_receipt};
use gen_scenario::Decision;
use gen_types::{OrderNo, ReadError};
use std::alloc::{AllocError, Global};
use std::marker::Model;

/// What is left of a node that has ended: the header of its run, its log, and what it decided.
#[derive(Drop)]
pub struct EndedNode {
    header: Header,
    log: SealedLog,
    decision: Decision,
}

impl Model for EndedNode {
    ghost use Rattle.sm_node.specs.EndedNode.{EndedNode, IsSealedLog};

    ghost Value = { EndedNode };

    ghost view = { λ e. record { header = e.header; log = e.log; decision = e.decision } };

    ghost invariant = { λ e. IsSealedLog e.header e.log };
}

impl EndedNode {
    /// Returns what is left of a node with this header, log and decision.
    pub(crate) fn new(header: Header, log: SealedLog, decision: Decision) -> EndedNode
        requires { IsSealedLog header log }
        ensures { result ≡ record { header = header; log = log; decision = decision } }
    {
        EndedNode {
            header,
            log,
            decision,
        }
    }

    /// Returns the bytes of the log.
    pub(crate) fn log_bytes(&self) -> &[u8]
        ensures { result.now ≡ self.now.log.bytes }
    {
        self.log.bytes()
    }

    /// Returns the order that the node decided.
    pub(crate) fn order(&self) -> OrderNo
        ensures { result ≡ self.now.decision.order }
    {
        self.decision.order
    }

    /// Returns the bytes of the receipt of the node's log, which holds.
    pub(crate) fn receipt_bytes(&self, alloc: Global) -> Result<Vec<u8>, AllocError>
        ensures { IfOk result (λ text. IsOwnReceipt self.now.header self.now.log text.items) }
    {
        // Reading the network makes the header's invariant known.
        let _net = self.header.net();
        logs_are_read_again();
        receipts_are_complete();
        let general = self.log.general();
        match receipt_of_bytes(alloc, &self.header, general, self.log.bytes()) {
            Ok(receipt) => write_receipt(alloc, &self.header, &receipt),
            Err(ReadError::Memory) => Err(AllocError),
            Err(ReadError::Fault(_)) => unreachable!(),
        }
    }
}
