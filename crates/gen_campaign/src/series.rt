//! Campaigns: scenarios whose runs follow one another.
ghost use Rattle.std.specs.Prelude.{◌≡◌, Ok};
ghost use Rattle.std.specs.List.{list_all};
ghost use Rattle.gen_campaign.specs.Series.{are_alike, ascend_from, campaign_of, is_like};

use crate::campaigns::is_run_count;
use crate::series_fault::SeriesFault;
use gen_net::Version;
use gen_scenario::Scenario;
use std::marker::Model;

/// One to four scenarios of version 2, with the same number of generals and the same master seed, in slots
/// that ascend strictly. So each general signs with one ring in all runs. A contract sees the list of the
/// scenarios.
#[derive(Drop)]
pub struct Campaign {
    pub(crate) scenarios: Vec<Scenario>,
}

impl Model for Campaign {
    ghost use Rattle.std.specs.Prelude.{◌≡◌, List, Ok};
    ghost use Rattle.gen_scenario.specs.Scenario as scenarios_of;
    ghost use Rattle.gen_campaign.specs.Series.{campaign_of};

    ghost Value = { List scenarios_of.Scenario };

    ghost view = { λ c. c.scenarios.items };

    ghost invariant = { λ c. campaign_of c.scenarios.items ≡ Ok c.scenarios.items };
}

/// Whether all scenarios are of version 2 and have the same number of generals and the same master seed as the first,
/// which is given.
fn are_all_like(first: &Scenario, scenarios: &[Scenario]) -> bool
    ensures { result ≡ list_all (is_like first.now) scenarios.now }
{
    let other = first.plan();
    scenarios.iter().all(|scenario| {
        let one = scenario.plan();
        matches!(one.version(), Version::Two { .. })
            && one.net().generals() == other.net().generals()
            && one.master() == other.master()
    })
}

/// Whether all scenarios are like the first of them.
fn are_like_first(scenarios: &[Scenario]) -> bool
    ensures { result ≡ are_alike scenarios.now }
{
    match scenarios.split_first() {
        None => true,
        Some((first, _)) => are_all_like(first, scenarios),
    }
}

/// Whether the slots of scenarios ascend strictly.
fn have_ascending_slots(scenarios: &[Scenario]) -> bool
    ensures { result ≡ ascend_from 0 scenarios.now }
{
    let mut rest = scenarios;
    let mut least = 0u8;
    'rest: while let Some((scenario, others)) = rest.split_first() {
        let slot = scenario.header().slot();
        if slot < least {
            return false;
        }
        least = slot + 1;
        rest = others;
    }
    true
}

impl Campaign {
    /// Returns the campaign of these scenarios. It takes no memory.
    ///
    /// # Errors
    ///
    /// The first rule that is broken, in the order in which they stand here. RunCount if there are not 1 to 4
    /// scenarios. Unlike if one is of version 1, or has another number of generals or another master seed
    /// than the first. SlotOrder if the slots don't ascend strictly. The scenarios are dropped then.
    pub fn new(scenarios: Vec<Scenario>) -> Result<Campaign, SeriesFault>
        ensures { result ≡ campaign_of scenarios.items }
    {
        if !is_run_count(scenarios.len()) {
            return Err(SeriesFault::RunCount);
        }
        if !are_like_first(scenarios.as_slice()) {
            return Err(SeriesFault::Unlike);
        }
        if !have_ascending_slots(scenarios.as_slice()) {
            return Err(SeriesFault::SlotOrder);
        }
        Ok(Campaign { scenarios })
    }

    /// Returns the scenarios, in ascending order of their slots.
    pub fn scenarios(&self) -> &[Scenario]
        ensures value { result.now ≡ self.now }
        ensures lawful { campaign_of self.now ≡ Ok self.now }
    {
        self.scenarios.as_slice()
    }
}
