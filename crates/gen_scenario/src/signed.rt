//! Scenarios with signatures.
ghost use Rattle.std.specs.Prelude.{◌≡◌, ◌≤◌, ◌<◌, ◌↔◌, ◌==◌, [], Ok, Err, length, map, IfOk};
ghost use Rattle.std.specs.List.{list_any, range_with_len};
ghost use Rattle.gen_tree.specs.Rings.{seed_of};
ghost use Rattle.gen_types.specs.declared.reading.ReadError.TheVariants.{Fault};
ghost use Rattle.gen_net.specs.declared.fault.HeaderFault.{HeaderFault as Broken};
ghost use Rattle.gen_net.specs.declared.fault.HeaderFault.TheVariants.{SlotRange};
ghost use Rattle.gen_net.specs.declared.version.Version.TheVariants.{One, Two};
ghost use Rattle.gen_net.specs.Version.{greatest_slot, height_in, slot_in};
ghost use Rattle.gen_scenario.specs.Scenario as scenarios;
ghost use Rattle.gen_scenario.specs.Scenario.{IsScenario, header_of, scenario_of};
ghost use Rattle.gen_scenario.specs.Rings.{ring_at};
ghost use Rattle.gen_scenario.specs.Trees.{general_tree};

use crate::plan::SignedPlan;
use gen_net::{GREATEST_SLOT, Header, HeaderFault, Net, Version};
use gen_script::Script;
use gen_tree::{KeyRing, KeyTree, general_seed};
use gen_types::{GeneralNo, GeneralSet, OrderNo, ReadError};
use std::alloc::{AllocError, Global};
use std::marker::Model;

/// A network whose generals sign, the commander's order, the master seed from which the keys of all generals
/// come, and the scripts of the traitors.
///
/// Every general without a script follows the algorithm. The trees of keys are made once, with the scenario.
/// The trees and the master seed aren't wiped from memory. A contract sees the version, the network, the
/// master seed, the order and the scripts as one record.
#[derive(Drop)]
pub struct Scenario {
    plan: SignedPlan,
    header: Header,
    trees: Vec<KeyTree>,
}

impl Model for Scenario {
    ghost use Rattle.std.specs.Prelude.{◌≡◌};
    ghost use Rattle.gen_scenario.specs.Scenario.{Scenario, header_of};
    ghost use Rattle.gen_scenario.specs.Trees.{trees_of};

    ghost Value = { Scenario };

    ghost view = { λ s. s.plan };

    ghost invariant = { λ s. record {
      header : s.header ≡ header_of s.plan;
      trees : s.trees.items ≡ trees_of s.plan;
    } };
}

/// Returns the header of this version, network and roots. The slot must be 0 to 3, and there must be one root
/// for each general.
fn header_over(version: Version, net: Net, roots: Vec<[u8; 32]>) -> Header
    requires slot { slot_in version ≤ greatest_slot }
    requires one_each { length roots.items ≡ net.generals }
    ensures { result ≡ record { version = version; network = net; roots = roots.items } }
{
    let header = match version {
        Version::One => Header::new(net, roots),
        Version::Two { slot } => Header::new_in_slot(net, slot, roots),
    };
    header.unwrap()
}

/// Whether one of the scripts belongs to the general.
fn is_scripted(scripts: &[Script], general: GeneralNo) -> bool
    ensures { result ≡ list_any (λ script. script.general == general) scripts.now }
{
    scripts.iter().any(|script| script.general() == general)
}

impl Scenario {
    /// Returns the scenario of version 1 on this network, with the commander's order, the master seed of all
    /// keys, and the scripts of the traitors.
    ///
    /// The order must be one of the network's. The scripts must belong to generals of the network, at most
    /// one to each, in ascending order. Their lines must be lawful, and the paths of the lines may name only
    /// generals that have scripts.
    ///
    /// # Errors
    ///
    /// `AllocError` if memory is refused.
    pub fn new(
        alloc: Global,
        net: Net,
        order: OrderNo,
        master: &[u8; 32],
        scripts: Vec<Script>,
    ) -> Result<Scenario, AllocError>
        requires { IsScenario (scenario_of One net master.now order scripts.items) }
        ensures { IfOk result (λ scenario. scenario ≡ scenario_of One net master.now order scripts.items) }
    {
        Scenario::of_plan(
            alloc,
            SignedPlan::new(Version::One, net, order, master, scripts),
        )
    }

    /// Returns the scenario of these parts in version 2, for the run of this slot, 0 to 3, of the four runs
    /// that a tree of keys serves. The parts must be lawful, as for `new`.
    ///
    /// # Errors
    ///
    /// `Fault(SlotRange)` if and only if the slot is above 3, which is tested before memory is taken;
    /// otherwise `Memory` if memory is refused.
    pub fn new_in_slot(
        alloc: Global,
        net: Net,
        slot: u8,
        order: OrderNo,
        master: &[u8; 32],
        scripts: Vec<Script>,
    ) -> Result<Scenario, ReadError<HeaderFault>>
        requires { slot ≤ greatest_slot → IsScenario (scenario_of (Two slot) net master.now order scripts.items) }
        ensures slot { (result ≡ Err (Fault SlotRange)) ↔ (greatest_slot < slot) }
        ensures only { (fault : Broken) → result ≡ Err (Fault fault) → fault ≡ SlotRange }
        ensures value { IfOk result (λ scenario. scenario ≡ scenario_of (Two slot) net master.now order scripts.items) }
    {
        if slot > GREATEST_SLOT {
            return Err(ReadError::Fault(HeaderFault::SlotRange));
        }
        let version = Version::Two { slot };
        let plan = SignedPlan::new(version, net, order, master, scripts);
        Ok(Scenario::of_plan(alloc, plan)?)
    }

    /// Returns the scenario of a plan, and makes the trees of all its keys.
    ///
    /// # Errors
    ///
    /// `AllocError` if memory is refused.
    pub fn of_plan(alloc: Global, plan: SignedPlan) -> Result<Scenario, AllocError>
        ensures { IfOk result (λ scenario. scenario ≡ plan) }
    {
        let _lawful = plan.scripts();
        let height = plan.version().height();
        let generals = plan.net().generals();
        let mut trees = Vec::with_capacity(alloc, usize::from(generals))?;
        'generals: for number in 0..generals {
            let seed = general_seed(plan.master(), GeneralNo::at(number));
            let tree = KeyTree::from_seed(alloc, &seed, height)?;
            trees.push(tree)?;
        }
        Scenario::of_trees(alloc, plan, trees)
    }

    /// Returns the scenario of a plan, as `of_plan` does, but with trees that were made before, so that
    /// threads can make them. They must be the trees of all generals under the master seed, of the version's
    /// height, in ascending order of generals.
    ///
    /// # Errors
    ///
    /// `AllocError` if memory is refused.
    pub fn of_trees(
        alloc: Global,
        plan: SignedPlan,
        trees: Vec<KeyTree>,
    ) -> Result<Scenario, AllocError>
        requires { trees.items
            ≡ map (general_tree plan.master (height_in plan.version)) (range_with_len 0 plan.net.generals) }
        ensures { IfOk result (λ scenario. scenario ≡ plan) }
    {
        let _lawful = plan.scripts();
        let mut roots = Vec::with_capacity(alloc, trees.len())?;
        'trees: for tree in trees.as_slice() {
            roots.push(tree.root())?;
        }
        let net = plan.net().clone()?;
        let header = header_over(plan.version(), net, roots);
        Ok(Scenario {
            plan,
            header,
            trees,
        })
    }

    /// Returns the plan of the scenario.
    pub fn plan(&self) -> &SignedPlan
        ensures { result.now ≡ self.now }
    {
        &self.plan
    }

    /// Returns the header of the scenario's run. The root of each general in it is the root of the ring of
    /// that general's seed.
    pub fn header(&self) -> &Header
        ensures value { result.now ≡ header_of self.now }
        ensures scenario { IsScenario self.now }
    {
        let _lawful = self.plan.scripts();
        &self.header
    }

    /// Returns the commander's order, which is one of the network's.
    pub fn order(&self) -> OrderNo
        ensures value { result ≡ self.now.order }
        ensures known { result < self.now.net.orders }
    {
        let _lawful = self.plan.scripts();
        self.plan.order()
    }

    /// Returns the scripts, in ascending order of their generals.
    pub fn scripts(&self) -> &[Script]
        ensures { result.now ≡ self.now.scripts }
    {
        self.plan.scripts()
    }

    /// Returns the set of the generals that have scripts.
    pub fn scripted(&self) -> GeneralSet
        ensures { result ≡ scenarios.scripted self.now.scripts }
    {
        let _lawful = self.header();
        let mut set = GeneralSet::new();
        'scripts: for script in self.scripts() {
            set.insert(script.general());
        }
        set
    }

    /// Whether a general has a script.
    pub fn has_script(&self, general: GeneralNo) -> bool
        ensures { result ≡ scenarios.has_script self.now general }
    {
        is_scripted(self.scripts(), general)
    }

    /// Returns the tree of a general's keys. The number must be that of a general of the network.
    pub(crate) fn tree(&self, general: GeneralNo) -> &KeyTree
        requires { general < self.now.net.generals }
        ensures { result.now ≡ general_tree self.now.master (height_in self.now.version) general }
    {
        &self.trees[usize::from(general.get())]
    }

    /// Returns the ring of a general's keys, with no leaf taken. The number must be that of a general of the
    /// network.
    ///
    /// A second ring of the same general gives each leaf again.
    ///
    /// # Errors
    ///
    /// `AllocError` if memory is refused.
    pub fn ring(&self, general: GeneralNo) -> Result<KeyRing, AllocError>
        requires { general < self.now.net.generals }
        ensures { IfOk result (λ ring. ring ≡ record {
          seed = seed_of self.now.master general;
          height = height_in self.now.version;
          taken = [];
        }) }
    {
        KeyRing::open(self.tree(general))
    }

    /// Returns the ring of a general's keys, with no leaf taken, if the general has no script. The number
    /// must be that of a general of the network.
    ///
    /// # Errors
    ///
    /// `AllocError` if memory is refused.
    pub fn ring_if_loyal(&self, general: GeneralNo) -> Result<Option<KeyRing>, AllocError>
        requires { general < self.now.net.generals }
        ensures { IfOk result (λ ring. ring ≡ ring_at self.now general) }
    {
        if self.has_script(general) {
            return Ok(None);
        }
        let ring = self.ring(general)?;
        Ok(Some(ring))
    }
}
