//! What receipts tell, as facts.
ghost use Rattle.std.specs.Prelude.{◌≡◌, IfOk};
ghost use Rattle.gen_receipting.specs.ToldFacts.{told_fact, told_facts};

use crate::told::{Told, ToldReceipt};
use gen_facts::{Fact, heads_fact, receipt_fact, shown_fact};
use gen_net::Header;
use std::alloc::{AllocError, Global};

/// Returns the fact of a receipt.
fn told_fact(receipt: &ToldReceipt) -> Fact
    ensures { result ≡ told_fact receipt.now }
{
    receipt_fact(&receipt.decision, receipt.entries, receipt.holds)
}

/// Returns the facts of what receipts of a run tell: the orders that are shown, each receipt in their order, and each
/// general that is convicted.
pub(crate) fn told_facts(
    alloc: Global,
    header: &Header,
    told: &Told,
) -> Result<Vec<Fact>, AllocError>
    ensures { IfOk result (λ facts. facts.items ≡ told_facts header.now told.now) }
{
    let receipts = told.receipts.as_slice();
    let mut facts = Vec::new(alloc);
    facts.push(shown_fact(header, &told.shown))?;
    for receipt in receipts {
        facts.push(told_fact(receipt))?;
    }
    for general in told.convicted.iter() {
        facts.push(heads_fact(general))?;
    }
    Ok(facts)
}
