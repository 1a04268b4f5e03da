//! What receipts show, as facts.
ghost use Rattle.std.specs.Prelude.{◌≡◌};
ghost use Rattle.gen_facts.specs.Facts.{heads_fact, holds_number, receipt_fact, shown_fact};

use crate::fact::{CONVICTION, Fact, NO_FACT, RECEIPT, SHOWN, about};
use gen_net::Header;
use gen_scenario::Decision;
use gen_types::{GeneralNo, OrderSet};

/// Returns the fact of the orders that receipts of a run show: the orders, the numbers of the network, and the run
/// id.
pub fn shown_fact(header: &Header, shown: &OrderSet) -> Fact
    ensures { result ≡ shown_fact header.now shown.now }
{
    Fact {
        kind: SHOWN,
        generals: u32::from(header.net().generals()),
        traitors: u32::from(header.net().traitors()),
        set: u32::from(shown.bits()),
        run_id: *header.run_id(),
        ..NO_FACT
    }
}

/// Returns 1 if a receipt holds, and else 2.
fn holds_number(holds: bool) -> u32
    ensures { result ≡ holds_number holds }
{
    if holds { 1 } else { 2 }
}

/// Returns the fact of a receipt: the decision that it shows, the number of entries of the log, and whether it holds.
pub fn receipt_fact(decision: &Decision, entries: u64, holds: bool) -> Fact
    ensures { result ≡ receipt_fact decision.now entries holds }
{
    Fact {
        order: u32::from(decision.order.get()),
        set: u32::from(decision.orders.bits()),
        entry: entries,
        ..about(RECEIPT, 0, decision.general, holds_number(holds))
    }
}

/// Returns the fact that two heads convict a general. Its kind of conviction is K1.
pub fn heads_fact(general: GeneralNo) -> Fact
    ensures { result ≡ heads_fact general }
{
    about(CONVICTION, 0, general, 1)
}
