//! Tests whether an entry may follow those before it.
ghost use Rattle.std.specs.Prelude.{IsTrue, ◌≡◌, ◌≤◌, ◌<◌, ◌↔◌, ◌⊎◌};
ghost use Rattle.gen_log.specs.Entry.{erase};
ghost use Rattle.gen_net.specs.Network.{IsNetwork};
ghost use Rattle.gen_local.specs.Following.{MayFollow};
ghost use Rattle.gen_local.specs.Keys.{IsSmall};
ghost use Rattle.gen_local.specs.Erased.{erased};
ghost use Rattle.gen_local.specs.Walking.Judged.{Stops, AnyStops, IsAllowed, IsJudged};
ghost use Rattle.gen_local.specs.Walking.State.{IsAfter};

use crate::deciding::can_decide;
use crate::places::{place_key, send_key, sign_key};
use crate::progress::{ORDERS, Progress};
use crate::receiving::is_chain;
use crate::signing::lengthens;
use gen_log::Entry;
use gen_net::Net;
use gen_types::{GeneralNo, OrderNo};

/// Whether an order is due to be signed or sent at a place before this one.
fn stops(net: &Net, order: OrderNo, progress: &Progress, at: u32) -> bool
    ensures { IsTrue result ↔ Stops net.now order progress.now at }
{
    match progress {
        Progress::Unlearnt => false,
        Progress::Learnt { round } => {
            *round < net.rounds() && sign_key(usize::from(*round) + 1, order.get()) < at
        }
        Progress::Relayed { path, next } => {
            *next < net.generals() && send_key(path.len(), *next, order.get()) < at
        }
    }
}

/// Whether any order is due to be signed or sent at a place before this one.
fn any_stops(net: &Net, orders: &[Progress; ORDERS], at: u32) -> bool
    ensures { IsTrue result ↔ AnyStops net.now orders.now at }
{
    for number in 0..ORDERS as u8 {
        if stops(net, OrderNo::at(number), &orders[usize::from(number)], at) {
            return true;
        }
    }
    false
}

/// Whether the general, with this progress after the entries before, can write the entry.
fn is_allowed(
    net: &Net,
    general: GeneralNo,
    before: &[Entry],
    orders: &[Progress; ORDERS],
    entry: &Entry,
) -> bool
    ensures { IsTrue result ↔ IsAllowed net.now general (erased before.now) orders.now (erase entry.now) }
{
    match entry {
        // The commander has one of the network's orders of its own, and a lieutenant none.
        Entry::Start {
            general: other,
            own,
        } => match own {
            None => *other == general && general.get() != 0,
            Some(order) => *other == general && general.get() == 0 && order.get() < net.orders(),
        },
        Entry::Sign {
            order,
            path,
            signature: _,
        } => match &orders[usize::from(order.get())] {
            Progress::Learnt { round } => {
                *round < net.rounds() && lengthens(general, before, *order, *round, path.generals())
            }
            Progress::Unlearnt | Progress::Relayed { .. } => false,
        },
        // The next SEND that is due is allowed.
        Entry::Send { to, order, path } => match &orders[usize::from(order.get())] {
            Progress::Relayed { path: due, next } => {
                to.get() < net.generals() && *next == to.get() && *due == *path
            }
            Progress::Unlearnt | Progress::Learnt { .. } => false,
        },
        // A chain of the network can arrive from the neighbour that signed last, if it doesn't name the general.
        Entry::Recv { from, chain } => {
            let path = chain.path();
            net.has_edge(*from, general)
                && is_chain(net, chain.order(), &path)
                && path.len() <= usize::from(net.rounds())
                && path.ends_with(*from)
                && !path.contains(general)
        }
        Entry::Decide { orders: set, order } => can_decide(net, orders, set, *order),
    }
}

/// Whether the entry may follow. The places of the entries before are below `least`, and `orders` is the progress after
/// them.
pub fn is_judged(
    net: &Net,
    general: GeneralNo,
    before: &[Entry],
    least: u32,
    orders: &[Progress; ORDERS],
    entry: &Entry,
) -> bool
    ensures { IsTrue result ↔ IsJudged net.now general (erased before.now) least orders.now (erase entry.now) }
{
    let at = place_key(net, entry);
    least <= at
        && (matches!(entry, Entry::Start { .. }) || least > 0)
        && !any_stops(net, orders, at)
        && is_allowed(net, general, before, orders, entry)
}
