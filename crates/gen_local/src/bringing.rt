//! Updates a general's progress with an order by an entry of its log.
ghost use Rattle.std.specs.Prelude.{IsTrue, ℕ, ◌≡◌, ◌≤◌, ◌<◌, ◌↔◌, Some, length};
ghost use Rattle.gen_log.specs.Entry.{erase};
ghost use Rattle.gen_local.specs.Keys.{IsSmall};
ghost use Rattle.gen_local.specs.Walking.Brought.{Brings, IsOf, AreBrought, SendsInside};

use crate::places::round_of;
use crate::progress::{ORDERS, Progress};
use crate::sending::next_due;
use gen_log::Entry;
use gen_net::Net;
use gen_types::{GeneralNo, OrderNo};

/// Returns the order that the entry is about, if there is one.
fn order_of(entry: &Entry) -> Option<OrderNo>
    ensures order { (v : ℕ) → (result ≡ Some v) ↔ IsOf v (erase entry.now) }
{
    match entry {
        Entry::Start { general: _, own } => *own,
        Entry::Sign { order, .. } => Some(*order),
        Entry::Send { order, .. } => Some(*order),
        Entry::Recv { from: _, chain } => Some(chain.order()),
        Entry::Decide { .. } => None,
    }
}

/// Returns the progress with the entry's order after the entry, from the progress before it.
fn brought(net: &Net, general: GeneralNo, old: Progress, entry: &Entry) -> Progress
    requires { SendsInside net.now (erase entry.now) }
    ensures { (v : ℕ) → Brings net.now general v old (erase entry.now) result }
{
    match entry {
        Entry::Start { general: _, own } => match own {
            None => old,
            Some(_) => Progress::Learnt { round: 0 },
        },
        Entry::Sign {
            order: _,
            path,
            signature: _,
        } => Progress::Relayed {
            path: *path,
            next: next_due(net, general, path, 0),
        },
        Entry::Send { to, order: _, path } => Progress::Relayed {
            path: *path,
            next: next_due(net, general, path, to.get() + 1),
        },
        Entry::Recv { from: _, chain } => match old {
            Progress::Unlearnt => Progress::Learnt {
                round: round_of(chain),
            },
            Progress::Learnt { .. } | Progress::Relayed { .. } => old,
        },
        Entry::Decide { .. } => old,
    }
}

/// Updates the progress with the entry's order; the progress with the other orders stays.
pub fn bring(net: &Net, general: GeneralNo, orders: &mut [Progress; ORDERS], entry: &Entry)
    requires full { length orders.old ≡ 16 }
    requires inside { SendsInside net.now (erase entry.now) }
    ensures { AreBrought net.now general orders.old (erase entry.now) orders.new }
{
    if let Some(order) = order_of(entry) {
        let index = usize::from(order.get());
        orders[index] = brought(net, general, orders[index], entry);
    }
}
