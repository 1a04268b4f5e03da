//! Scenarios with signatures before their keys are made.
ghost use Rattle.std.specs.Prelude.{◌≡◌};
ghost use Rattle.gen_scenario.specs.Scenario.{IsScenario, scenario_of};

use gen_net::{Net, Version};
use gen_script::Script;
use gen_types::{GeneralSet, OrderNo};
use std::marker::Model;

/// A scenario with signatures whose keys are not made yet: a network, the commander's order, and the version
/// with the slot of the run. It also has the master seed from which all keys come, and the scripts of the
/// traitors.
///
/// It is lawful: a scenario can be made of it without a fault. A contract sees that scenario.
#[derive(Debug, Drop)]
pub struct SignedPlan {
    version: Version,
    net: Net,
    master: [u8; 32],
    order: OrderNo,
    scripts: Vec<Script>,
}

impl Model for SignedPlan {
    ghost use Rattle.gen_scenario.specs.Scenario.{Scenario, IsScenario, scenario_of};

    ghost Value = { Scenario };

    ghost view = { λ s. scenario_of s.version s.net s.master s.order s.scripts.items };

    ghost invariant = { λ s. IsScenario (scenario_of s.version s.net s.master s.order s.scripts.items) };
}

impl SignedPlan {
    /// Returns the plan of these parts, which must be lawful. The slot must be 0 to 3, and the order one of
    /// the network's. The scripts must belong to generals of the network, at most one to each, in ascending
    /// order. Their lines must be lawful, and the paths of the lines may name only generals that have
    /// scripts.
    pub fn new(
        version: Version,
        net: Net,
        order: OrderNo,
        master: &[u8; 32],
        scripts: Vec<Script>,
    ) -> SignedPlan
        requires { IsScenario (scenario_of version net master.now order scripts.items) }
        ensures { result ≡ scenario_of version net master.now order scripts.items }
    {
        SignedPlan {
            version,
            net,
            master: *master,
            order,
            scripts,
        }
    }

    /// Returns the version, with the slot of the run if the version has slots.
    pub fn version(&self) -> Version
        ensures { result ≡ self.now.version }
    {
        self.version
    }

    /// Returns the network.
    pub fn net(&self) -> &Net
        ensures { result.now ≡ self.now.net }
    {
        &self.net
    }

    /// Returns the master seed from which all keys come.
    pub fn master(&self) -> &[u8; 32]
        ensures { result.now ≡ self.now.master }
    {
        &self.master
    }

    /// Returns the commander's order, which is one of the network's.
    pub fn order(&self) -> OrderNo
        ensures { result ≡ self.now.order }
    {
        self.order
    }

    /// Returns the scripts of the traitors, in ascending order of their generals.
    pub fn scripts(&self) -> &[Script]
        ensures value { result.now ≡ self.now.scripts }
        ensures lawful { IsScenario self.now }
    {
        self.scripts.as_slice()
    }
}
