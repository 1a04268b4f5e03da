//! Tests what a general can decide.
ghost use Rattle.std.specs.Prelude.{IsTrue, ℕ, List, ◌≡◌, ◌<◌, ◌↔◌, slice_index_or};
ghost use Rattle.gen_types.specs.Ascending.{IsListOf};
ghost use Rattle.gen_net.specs.Network.{choose};
ghost use Rattle.gen_local.specs.declared.progress.Progress.TheVariants.{Unlearnt};
ghost use Rattle.gen_local.specs.Walking.Judged.{IsKnown};

use crate::progress::{ORDERS, Progress};
use gen_net::Net;
use gen_types::{Choice, OrderNo, OrderSet};

/// Whether an order was learnt.
fn is_known(progress: &Progress) -> bool
    ensures { IsTrue result ↔ IsKnown progress.now }
{
    match progress {
        Progress::Unlearnt => false,
        Progress::Learnt { round: _ } => true,
        Progress::Relayed { path: _, next: _ } => true,
    }
}

/// Whether a general with this progress can decide: the set is that of the orders that it learnt, and the order is the
/// choice of the set.
pub fn can_decide(net: &Net, orders: &[Progress; ORDERS], set: &OrderSet, order: OrderNo) -> bool
    ensures { IsTrue result ↔ (IsListOf set.now (λ v. (v < 16) × IsKnown (slice_index_or orders.now v Unlearnt)) × (order ≡ choose net.now set.now)) }
{
    let mut known = OrderSet::new();
    for number in 0..ORDERS as u8 {
        if is_known(&orders[usize::from(number)]) {
            known.insert(OrderNo::at(number));
        }
    }
    *set == known && order == net.choice().choose(*set)
}
