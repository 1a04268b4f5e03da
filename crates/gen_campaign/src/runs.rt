//! Runs of campaigns.
ghost use Rattle.std.specs.Prelude.{ℕ, ◌≡◌, ◌<◌, true, [], map, IfErr, IfOk};
ghost use Rattle.std.specs.List.{list_all};
ghost use Rattle.gen_scenario.specs.Rows.{logs_of_all};
ghost use Rattle.gen_threads.specs.Faults.{IsAnsweredFault};
ghost use Rattle.gen_campaign.specs.Series.{ascend_from, is_like};
ghost use Rattle.gen_campaign.specs.Leaves.{AreKept, AreSpentIn};
ghost use Rattle.gen_campaign.specs.OneText.{EachLeafHasOneText};

use crate::lists::keep;
use crate::series::Campaign;
use gen_log::SealedLog;
use gen_scenario::Scenario;
use gen_threads::{Gate, HeldRing, RunFault, open_rings, run_with_rings};
use gen_tree::LeafSet;
use std::alloc::{AllocError, Global};
use std::sync::Wait;
use std::thread::Threads;

/// Closes rings, and returns the leaves that were taken from each, in their order.
fn close_rings(alloc: Global, rings: Vec<HeldRing>) -> Result<Vec<LeafSet>, AllocError>
    ensures { IfOk result (λ sets. sets.items ≡ map (λ ring. ring.taken) rings.items) }
{
    let mut sets = Vec::with_capacity(alloc, rings.len())?;
    for held in rings {
        sets.push(held.into_ring().close())?;
    }
    Ok(sets)
}

/// Runs these scenarios one after another with these rings, and returns the logs of each run, and the rings.
fn run_all<R: Threads + Wait + Sync, G: Gate + Sync>(
    rt: &R,
    alloc: Global,
    first: &Scenario,
    scenarios: &[Scenario],
    capacity: usize,
    gate: &G,
    rings: Vec<HeldRing>,
) -> Result<(Vec<Vec<SealedLog>>, Vec<HeldRing>), RunFault>
    requires capacity { 0 < capacity }
    requires apart { ascend_from 0 scenarios.now ≡ true }
    requires alike { list_all (is_like first.now) scenarios.now ≡ true }
    requires kept { AreKept first.now scenarios.now scenarios.now 0 rings.items }
    ensures logs { IfOk result (λ r. map (λ logs. logs.items) r.0.items ≡ map logs_of_all scenarios.now) }
    ensures kept { IfOk result (λ r. (least : ℕ) × AreKept first.now scenarios.now [] least r.1.items) }
    ensures fault { IfErr result IsAnsweredFault }
{
    let mut rings = rings;
    let mut all = Vec::new(alloc);
    let mut rest = scenarios;
    'runs: while let Some((scenario, others)) = rest.split_first() {
        let (logs, back) = run_with_rings(rt, alloc, scenario, capacity, gate, rings)?;
        rings = back;
        keep(&mut all, logs)?;
        rest = others;
    }
    Ok((all, rings))
}

/// Makes known to the proof that a general signs at most one text under each leaf in a campaign.
fn note_texts(campaign: &Campaign)
    ensures { EachLeafHasOneText campaign.now }
{
    let scenarios = campaign.scenarios();
    for scenario in scenarios {
        // This read makes known to the proof what holds of a scenario.
        let _header = scenario.header();
    }
}

/// Runs the scenarios of a campaign one after another, each as `run_threads` does, and returns the logs of
/// each run. It also returns for each general, in ascending order, the set of the leaves under which the
/// general signed in its logs of the runs in which it has no script.
///
/// For each general one ring is opened, which goes through all runs and is then closed. In a run in which the
/// general has a script, the ring is not used. If a run fails, all rings are closed too.
///
/// # Errors
///
/// Those of `run_threads`, of the first run that fails; also Memory if it is refused for rings, logs or sets.
pub fn run_campaign<R: Threads + Wait + Sync, G: Gate + Sync>(
    rt: &R,
    alloc: Global,
    campaign: &Campaign,
    capacity: usize,
    gate: &G,
) -> Result<(Vec<Vec<SealedLog>>, Vec<LeafSet>), RunFault>
    requires { 0 < capacity }
    ensures logs { IfOk result (λ r. map (λ logs. logs.items) r.0.items ≡ map logs_of_all campaign.now) }
    ensures leaves { IfOk result (λ r. AreSpentIn campaign.now r.1.items) }
    // If a general signs two texts under one leaf in these runs, they are the same text of the same run.
    ensures once { EachLeafHasOneText campaign.now }
    ensures fault { IfErr result IsAnsweredFault }
{
    let scenarios = campaign.scenarios();
    note_texts(campaign);
    let Some((first, _)) = scenarios.split_first() else {
        return Ok((Vec::new(alloc), Vec::new(alloc)));
    };
    let rings = open_rings(alloc, first)?;
    let (all, back) = run_all(rt, alloc, first, scenarios, capacity, gate, rings)?;
    let sets = close_rings(alloc, back)?;
    Ok((all, sets))
}
