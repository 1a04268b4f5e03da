//! What a scenario text of a campaign has in common with those before it.
ghost use Rattle.std.specs.Prelude.{◌≡◌};
ghost use Rattle.gen_campaign.specs.CampaignTextReading.{comes_after, has_generals_of, has_seed_of};

use gen_scenario::SignedPlan;

/// Returns whether each of these scenarios has this number of generals.
pub fn have_generals(before: &[SignedPlan], generals: u8) -> bool
    ensures { result ≡ has_generals_of before.now generals }
{
    before.iter().all(|plan| plan.net().generals() == generals)
}

/// Returns whether each of these scenarios has this seed.
pub fn have_seed(before: &[SignedPlan], seed: &[u8; 32]) -> bool
    ensures { result ≡ has_seed_of before.now seed.now }
{
    before.iter().all(|plan| plan.master() == seed)
}

/// Returns whether the slot is greater than that of each of these scenarios.
pub fn come_before(before: &[SignedPlan], slot: u8) -> bool
    ensures { result ≡ comes_after before.now slot }
{
    before.iter().all(|plan| plan.version().slot() < slot)
}
