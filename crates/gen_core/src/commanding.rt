//! The commander.
ghost use Rattle.std.specs.Prelude.{◌≡◌, [], ◌∷◌, IfOk};
ghost use Rattle.gen_core.specs.Sending.{AreSends, IsCommand};

use crate::sending::Outgoing;
use gen_net::Net;
use gen_types::{GeneralNo, OrderNo, OrderSet, Path};
use std::alloc::{AllocError, Global};
use std::marker::Model;

/// The commander, general 0, with its order. A contract sees only the order.
#[derive(Clone, Copy, Debug)]
pub struct Commander {
    order: OrderNo,
}

impl Model for Commander {
    ghost use Rattle.std.specs.Prelude.{ℕ};

    ghost Value = { ℕ };

    ghost view = { λ c. c.order };

    ghost inverse = { λ v. record { order = v } };
}

impl Commander {
    /// Makes the commander with this order.
    pub fn new(order: OrderNo) -> Commander
        ensures { result ≡ order }
    {
        Commander { order }
    }

    /// Returns what the commander sends in round 1 (step 1 of SM(m), section 4 of the paper of 1982): its
    /// order, signed by itself alone, to each neighbour, in ascending order of neighbours. It fails only if
    /// memory is refused.
    pub fn sends(&self, alloc: Global, net: &Net) -> Result<Vec<Outgoing>, AllocError>
        ensures { IfOk result (λ out. AreSends (IsCommand net.now self.now) out.items) }
    {
        let path = Path::commander();
        let mut out = Vec::new(alloc);
        for to in net.neighbours(GeneralNo::commander()) {
            out.push(Outgoing {
                to,
                order: self.order,
                path,
            })?;
        }
        Ok(out)
    }

    /// Returns what the commander decides: the set of its own order alone, and its own order.
    pub fn decide(&self) -> (OrderSet, OrderNo)
        ensures set { result.0 ≡ self.now ∷ [] }
        ensures order { result.1 ≡ self.now }
    {
        (OrderSet::only(self.order), self.order)
    }
}
