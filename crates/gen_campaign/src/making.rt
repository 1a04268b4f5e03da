//! Making campaigns of plans.
ghost use Rattle.std.specs.Prelude.{◌≡◌, Contains, IfOk, Ok, map};
ghost use Rattle.std.specs.List.{range_with_len};
ghost use Rattle.gen_net.specs.Version.{height_in};
ghost use Rattle.gen_scenario.specs.Scenario.{Scenario as Plan};
ghost use Rattle.gen_scenario.specs.Trees.{general_tree};
ghost use Rattle.gen_campaign.specs.Series.{campaign_of};

use crate::series::Campaign;
use gen_scenario::{Scenario, SignedPlan};
use gen_threads::make_trees;
use gen_tree::KeyTree;
use gen_types::TreeHeight;
use std::alloc::{AllocError, Global};
use std::thread::Threads;

/// Makes the scenarios of these plans, all with these trees of the generals' keys.
fn make_scenarios(
    alloc: Global,
    plans: Vec<SignedPlan>,
    trees: &Vec<KeyTree>,
) -> Result<Vec<Scenario>, AllocError>
    requires { (plan : Plan) → Contains plans.items plan → trees.now.items
        ≡ map (general_tree plan.master (height_in plan.version)) (range_with_len 0 plan.net.generals) }
    ensures { IfOk result (λ scenarios. scenarios.items ≡ plans.items) }
{
    let mut scenarios = Vec::with_capacity(alloc, plans.len())?;
    for plan in plans {
        scenarios.push(Scenario::of_trees(alloc, plan, trees.clone()?)?)?;
    }
    Ok(scenarios)
}

/// Makes the campaign of these plans, which must break none of its rules. The trees of the generals' keys are
/// made once, by threads, and serve all runs.
///
/// # Errors
///
/// `AllocError` if memory is refused.
pub fn make_campaign<R: Threads + Sync>(
    rt: &R,
    alloc: Global,
    plans: Vec<SignedPlan>,
) -> Result<Campaign, AllocError>
    requires { campaign_of plans.items ≡ Ok plans.items }
    ensures { IfOk result (λ campaign. campaign ≡ plans.items) }
{
    let Some(first) = plans.first() else {
        unreachable!()
    };
    let generals = first.net().generals();
    let trees = make_trees(rt, alloc, first.master(), TreeHeight::Six, generals)?;
    let scenarios = make_scenarios(alloc, plans, &trees)?;
    Ok(Campaign { scenarios })
}
