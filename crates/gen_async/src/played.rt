//! The scenario that a machine plays.
ghost use Rattle.std.specs.Prelude.{List, ◌≡◌, Some, None, IfOk};
ghost use Rattle.gen_log.specs.declared.entries.Entry.{Entry as Said};
ghost use Rattle.gen_scenario.specs.Scenario.{header_of};
ghost use Rattle.gen_scenario.specs.SignedWorld.{own_order};
ghost use Rattle.gen_scenario.specs.WorldLogs.{decide_entry};
ghost use Rattle.gen_async.specs.Decided.{AreBytesOf};
ghost use Rattle.gen_async.specs.declared.acts.Act.{Act as Does};

use crate::acts::Act;
use crate::decided::received_in;
use gen_log::Entry;
use gen_net::Header;
use gen_scenario::Scenario;
use gen_tree::sizes::signature_bytes;
use gen_types::{Choice, GeneralNo, OrderNo, OrderSet};
use std::alloc::AllocError;
use std::marker::Model;
use std::snapshot::Snapshot;

/// What a machine keeps of its scenario: the header of the run, and the commander's order. A contract sees
/// the scenario.
#[derive(Drop)]
pub(crate) struct Played {
    scenario: Snapshot<Scenario>,
    header: Header,
    order: OrderNo,
}

impl Model for Played {
    ghost use Rattle.std.specs.Prelude.{◌≡◌};
    ghost use Rattle.gen_scenario.specs.Scenario.{Scenario, header_of};

    ghost Value = { Scenario };

    ghost view = { λ p. p.scenario.value };

    ghost invariant = { λ p. record {
      header : p.header ≡ header_of p.scenario.value;
      order : p.order ≡ p.scenario.value.order;
    } };
}

impl Played {
    /// Keeps what a machine needs of a scenario.
    pub(crate) fn of(scenario: &Scenario) -> Result<Played, AllocError>
        ensures { IfOk result (λ played. played ≡ scenario.now) }
    {
        Ok(Played {
            scenario: Snapshot::of(scenario),
            header: scenario.header().clone()?,
            order: scenario.order(),
        })
    }

    /// Returns the DECIDE entry behind these entries of a general, if the general has no act left. The commander
    /// decides its own order alone, a lieutenant the choice from the orders of the RECVs among the entries.
    pub(crate) fn decide(&self, next: Option<Act>, me: GeneralNo, written: &[u8]) -> Option<Entry>
        ensures acting { (act : Does) → next ≡ Some act → result ≡ None }
        ensures done { next ≡ None → (entries : List Said)
            → AreBytesOf (header_of self.now) entries written.now
            → result ≡ Some (decide_entry self.now.net (own_order self.now me) entries) }
    {
        if next.is_some() {
            return None;
        }
        if me.get() == 0 {
            return Some(Entry::Decide {
                orders: OrderSet::only(self.order),
                order: self.order,
            });
        }
        let orders = received_in(signature_bytes(self.header.height()), written);
        Some(Entry::Decide {
            orders,
            order: self.header.net().choice().choose(orders),
        })
    }
}
