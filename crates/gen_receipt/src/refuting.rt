//! Refutes receipts that have another decision than the log of their general.
ghost use Rattle.std.specs.Prelude.{IsTrue, ◌≡◌, ◌↔◌, IfOk};
ghost use Rattle.gen_log.specs.Links.{head_over};
ghost use Rattle.gen_convict.specs.Answers.{answer_of};
ghost use Rattle.gen_convict.specs.Refuting.{IsOwnLog};
ghost use Rattle.gen_receipt.specs.Receipts as receipts;
ghost use Rattle.gen_receipt.specs.Receipts.{IsReceipt, ReceiptHolds, last_text};
ghost use Rattle.gen_receipt.specs.Refuted.{HasDecisionOf, IsAnswerToReceipt};

use crate::receipts::{Receipt, receipt_of};
use crate::verifying::head_of;
use gen_chain::HeadText;
use gen_convict::Refutation;
use gen_convict::laws::links_tell;
use gen_local::{SignedText, Text};
use gen_log::kinds::DECIDE_KIND;
use gen_log::{LINK_PREFIX, Log, last_link};
use gen_net::Header;
use std::alloc::{AllocError, Global};

/// Returns the bytes that are hashed for the link after the DECIDE of a receipt.
fn last_text(alloc: Global, receipt: &Receipt) -> Result<Vec<u8>, AllocError>
    ensures { IfOk result (λ text. text.items ≡ last_text receipt.now) }
{
    let mut text = Vec::new(alloc);
    text.push(LINK_PREFIX)?;
    text.extend_from_slice(&receipt.link)?;
    text.push(DECIDE_KIND)?;
    text.extend_from_slice(&receipt.orders.bits().to_be_bytes())?;
    text.push(receipt.order.get())?;
    Ok(text)
}

/// Returns whether the head of a receipt is the head of its general's log.
fn has_head(header: &Header, receipt: &Receipt, own: &Log) -> bool
    ensures { IsTrue result ↔ (receipts.head_of receipt.now
        ≡ head_over header.now receipt.now.general own.now.entries) }
{
    let own_head = HeadText {
        general: receipt.general,
        entries: own.entries().len() as u64,
        last_link: last_link(header, receipt.general, own),
    };
    head_of(receipt) == own_head
}

/// Answers a receipt that holds, and that has another decision than the log that its general kept by following. The
/// answer is the head of the receipt, which verifies as the general's and isn't the head of that log. Or the answer is what
/// is hashed for the links after DECIDE, of the receipt and of the log: two different texts with one hash.
///
/// # Errors
///
/// `AllocError` where memory is refused.
pub fn refute_receipt(
    alloc: Global,
    header: &Header,
    receipt: &Receipt,
    own: &Log,
) -> Result<Refutation, AllocError>
    requires fits { IsReceipt header.now receipt.now }
    requires holds { ReceiptHolds header.now receipt.now }
    requires own { IsOwnLog header.now receipt.now.general own.now }
    requires other { HasDecisionOf own.now receipt.now → ⊥ }
    ensures { IfOk result
        (λ answer. IsAnswerToReceipt header.now receipt.now own.now (answer_of answer)) }
{
    // Reading the network makes the header's invariant known.
    let _net = header.net();
    links_tell();
    if !has_head(header, receipt, own) {
        return Ok(Refutation::Forged(SignedText {
            signer: receipt.general,
            text: Text::OfHead(head_of(receipt)),
            signature: receipt.signature.share(alloc)?,
        }));
    }
    let given = receipt_of(alloc, header, receipt.general, own)?;
    let left = last_text(alloc, receipt)?;
    let right = last_text(alloc, &given)?;
    Ok(Refutation::Collision(left, right))
}
