//! What a lieutenant sends.
ghost use Rattle.std.specs.Prelude.{ℕ, ◌≡◌, ◌↔◌, List, Some, length, IfOk, OnOk};
ghost use Rattle.gen_core.specs.Sending.{outgoing, IsDue, Appends, AreSends};
ghost use Rattle.gen_core.specs.Loops.Pushing.{IsDueBelow, GoesUpTo};

use crate::picks::Adds;
use gen_net::Net;
use gen_types::{GeneralNo, OrderNo, Path};
use std::alloc::{AllocError, Global};

/// A chain that is to be sent: its receiver, its order and its path.
#[derive(Clone, Copy, Debug, PartialEq, Eq)]
pub struct Outgoing {
    /// The general that is to receive it.
    pub to: GeneralNo,
    /// The chain's order.
    pub order: OrderNo,
    /// The chain's path: the generals that signed it; the sender is the last.
    pub path: Path,
}

/// Returns the path that a lieutenant has to send a general for one order: the picked path, lengthened by `me`. Returns
/// None if the two are not neighbours, or no path is picked. Returns None too if the picked path has as many signers as
/// there are rounds, or if it contains `me`, or if the longer path contains `to`.
fn due_at(net: &Net, me: GeneralNo, to: GeneralNo, adds: &Adds, order: OrderNo) -> Option<Path>
    ensures { (path : List ℕ) →
        (result ≡ Some path) ↔ IsDue net.now me adds.now (outgoing to order path) }
{
    if !net.has_edge(me, to) {
        return None;
    }
    let mut longer = adds.get(order)?;
    if longer.len() >= usize::from(net.rounds()) || longer.contains(me) {
        return None;
    }
    longer.push_new(me);
    if longer.contains(to) {
        return None;
    }
    Some(longer)
}

/// Appends what a lieutenant has to send a general, in ascending order of orders.
fn push_due(
    out: &mut Vec<Outgoing>,
    net: &Net,
    me: GeneralNo,
    to: GeneralNo,
    adds: &Adds,
) -> Result<(), AllocError>
    requires { GoesUpTo out.old.items to 0 }
    ensures exactly { let due = IsDueBelow net.now me adds.now to (length adds.now) in
        OnOk result (Appends due out.old.items out.new.items) }
    ensures order { OnOk result (GoesUpTo out.new.items to (length adds.now)) }
{
    for number in 0..adds.places() {
        let order = OrderNo::at(number);
        if let Some(path) = due_at(net, me, to, adds, order) {
            out.push(Outgoing { to, order, path })?;
        }
    }
    Ok(())
}

/// Returns what a lieutenant sends in the round after the one in which it added these orders (step 2 of
/// SM(m), section 4 of the paper of 1982). It lengthens each picked path by itself and sends it to each
/// neighbour that is not in the longer path. The chains stand in ascending order of receiver, then order.
/// Nothing is sent for a path that has as many signers as there are rounds, or that contains the lieutenant,
/// which no path that arrives at it does. It fails only if memory is refused.
pub fn sends(
    alloc: Global,
    net: &Net,
    me: GeneralNo,
    adds: &Adds,
) -> Result<Vec<Outgoing>, AllocError>
    ensures { IfOk result (λ out. AreSends (IsDue net.now me adds.now) out.items) }
{
    let mut out = Vec::new(alloc);
    for number in 0..net.generals() {
        push_due(&mut out, net, me, GeneralNo::at(number), adds)?;
    }
    Ok(out)
}
