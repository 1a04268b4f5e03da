//! Scenarios without signatures, and what their runs give.
ghost use Rattle.std.specs.Prelude.{◌≡◌, ◌<◌};

use gen_net::Net;
use gen_types::{GeneralNo, OrderNo, OrderSet};
use std::marker::Model;

/// A network and the commander's order, one of the network's. Everybody follows the algorithm.
#[derive(Debug, Drop)]
pub struct PlainScenario {
    net: Net,
    order: OrderNo,
}

impl Model for PlainScenario {
    ghost use Rattle.std.specs.Prelude.{◌<◌};
    ghost use Rattle.gen_scenario.specs.Scenario.{Plain};

    ghost Value = { Plain };

    ghost view = { λ s. record { net = s.net; order = s.order } };

    ghost invariant = { λ s. s.order < s.net.orders };
}

impl PlainScenario {
    /// Returns the scenario on this network in which the commander has this order, which must be one
    /// of the network's.
    pub fn new(net: Net, order: OrderNo) -> PlainScenario
        requires { order < net.orders }
        ensures net { result.net ≡ net }
        ensures order { result.order ≡ order }
    {
        PlainScenario { net, order }
    }

    /// Returns the network.
    pub fn net(&self) -> &Net
        ensures { result.now ≡ self.now.net }
    {
        &self.net
    }

    /// Returns the commander's order.
    pub fn order(&self) -> OrderNo
        ensures value { result ≡ self.now.order }
        ensures known { result < self.now.net.orders }
    {
        self.order
    }

    /// Returns the network and the commander's order.
    pub fn into_parts(self) -> (Net, OrderNo)
        ensures net { result.0 ≡ self.net }
        ensures order { result.1 ≡ self.order }
        ensures known { result.1 < self.net.orders }
    {
        (self.net, self.order)
    }
}

/// The decision of a general.
#[derive(Clone, Copy, Debug, PartialEq, Eq)]
pub struct Decision {
    /// The general.
    pub general: GeneralNo,
    /// The orders that the general accepted; for the commander, its own order alone.
    pub orders: OrderSet,
    /// The order that the general chose from them.
    pub order: OrderNo,
}

/// The decisions of the run of a plain scenario, in ascending order of generals.
#[derive(Debug, Drop)]
pub struct PlainRun {
    decisions: Vec<Decision>,
}

impl Model for PlainRun {
    ghost use Rattle.std.specs.Prelude.{List};
    ghost use Rattle.gen_scenario.specs.declared.scenario.Decision.{Decision};

    ghost Value = { List Decision };

    ghost view = { λ r. r.decisions.items };
}

impl PlainRun {
    /// Returns the run with these decisions.
    pub fn new(decisions: Vec<Decision>) -> PlainRun
        ensures { result ≡ decisions.items }
    {
        PlainRun { decisions }
    }

    /// Returns the decisions, in ascending order of generals.
    pub fn decisions(&self) -> &[Decision]
        ensures { result.now ≡ self.now }
    {
        &self.decisions
    }
}
