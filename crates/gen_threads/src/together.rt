//! All generals in threads.
ghost use Rattle.std.specs.Prelude.{◌≡◌, ◌<◌, ◌≤◌, [], length, IfErr, IfOk, vec_len, vec_capacity};
ghost use Rattle.gen_scenario.specs.AllAre.{AllAre};
ghost use Rattle.gen_scenario.specs.Rows.{logs_of_all};
ghost use Rattle.gen_threads.specs.Faults.{IsAnsweredFault};
ghost use Rattle.gen_threads.specs.HeldRings.{AreAfterRun, MayServe};
ghost use Rattle.gen_threads.specs.Works.{AreParts, AreWorks, TurnsFrom};

use crate::edges::Edges;
use crate::ends::RunFault;
use crate::gates::Gate;
use crate::held_rings::{HeldRing, open_rings};
use crate::joining::{gather, join_all, stop_all};
use crate::run_parts::RunPart;
use crate::starting::start_all;
use crate::works::{Field, Turn, Work, make_parts, make_works};
use gen_log::SealedLog;
use gen_scenario::Scenario;
use std::alloc::{AllocError, Global};
use std::snapshot::Snapshot;
use std::sync::Wait;
use std::sync::atomic::AtomicBool;
use std::thread;
use std::thread::Threads;

/// Runs each general in a thread of its own, and returns what came of each, in ascending order. The edges of the
/// generals whose threads were not started are ended first, so that nobody waits for them.
fn run_works<R: Threads + Wait + Sync, G: Gate + Sync>(
    rt: &R,
    alloc: Global,
    gate: &G,
    edges: &Edges,
    scenario: &Scenario,
    rings: &Snapshot<Vec<HeldRing>>,
    parts: &[RunPart],
    works: Vec<Work>,
) -> Result<Vec<Turn>, AllocError>
    requires parts { AreParts scenario.now parts.now }
    requires works { AreWorks edges.now scenario.now rings.now.value.items works.items }
    ensures count { IfOk result (λ v. vec_len v ≡ scenario.now.net.generals) }
    ensures turns { IfOk result (λ v. TurnsFrom edges.now scenario.now rings.now.value.items 0 v.items) }
{
    let count = works.len();
    let mut all_flags = Vec::with_capacity(alloc, count)?;
    for _ in 0..count {
        all_flags.push(AtomicBool::new(false))?;
    }
    let turns = Vec::with_capacity(alloc, count)?;
    let back = Vec::with_capacity(alloc, count)?;
    let flags = all_flags.as_slice();
    thread::scope(
        thread::scope_env(),
        rt,
        move |scope| -> Result<Vec<Turn>, AllocError>
            requires { AreParts scenario.now parts.now × (length flags.now ≡ scenario.now.net.generals)
                × AreWorks edges.now scenario.now rings.now.value.items works.items × (turns.items ≡ []) × (back.items ≡ [])
                × (vec_len works ≤ vec_capacity turns) × (vec_len works ≤ vec_capacity back) }
            ensures { IfOk result (λ v. (vec_len v ≡ scenario.entry.now.net.generals)
                × TurnsFrom edges.entry.now scenario.entry.now rings.entry.now.value.items 0 v.items) }
        {
            let field = Field {
                edges,
                scenario,
                parts,
                flags,
                rings,
            };
            let handles = Vec::with_capacity(alloc, works.len())?;
            let (handles, mut back) = start_all(
                rt, alloc, gate, scope, field, works, handles, back,
            );
            stop_all(rt, field, handles.len(), &mut back);
            Ok(join_all(rt, field, handles, back, turns))
        },
    )
}

/// Runs a scenario as `run_threads` does, with rings that are handed in, one for each general in ascending
/// order. Each ring must be that of the general's seed, of the run's height, and no leaf of the run may have
/// been taken from it. Returns the logs of all generals, and the rings in the same order. From each ring
/// exactly the leaves of what the general signed in its log were taken; the ring of a general with a script
/// is not used.
///
/// So a ring that comes back may be handed in again to a run of another slot.
///
/// # Errors
///
/// Those of `run_threads`. All rings are closed then.
pub fn run_with_rings<R: Threads + Wait + Sync, G: Gate + Sync>(
    rt: &R,
    alloc: Global,
    scenario: &Scenario,
    capacity: usize,
    gate: &G,
    rings: Vec<HeldRing>,
) -> Result<(Vec<SealedLog>, Vec<HeldRing>), RunFault>
    requires capacity { 0 < capacity }
    requires rings { AllAre (MayServe scenario.now) scenario.now.net.generals rings.items }
    ensures logs { IfOk result (λ r. r.0.items ≡ logs_of_all scenario.now) }
    ensures rings { IfOk result (λ r. AreAfterRun scenario.now rings.items r.1.items) }
    ensures fault { IfErr result IsAnsweredFault }
{
    let held = Snapshot::of(&rings);
    let parts = make_parts(alloc, scenario)?;
    let logs = Vec::with_capacity(alloc, 2 * parts.len())?;
    let back = Vec::with_capacity(alloc, parts.len())?;
    let (edges, works) = make_works(alloc, scenario, capacity, rings)?;
    let turns = run_works(
        rt,
        alloc,
        gate,
        &edges,
        scenario,
        &held,
        parts.as_slice(),
        works,
    )?;
    gather(scenario, &edges, &held, turns, logs, back)
}

/// Runs a scenario, each general in a thread of its own, over edges with room for this many frames each,
/// which must be at least one. Returns the logs of all generals in ascending order of generals, a second log
/// behind the first. The gate is called by each general's thread before each round, and with the general's
/// logs once they are sealed.
///
/// Threads are started in ascending order of generals. After one that could not be started, no other is
/// started, and this thread tells the neighbours of the generals that have no thread. All rings are closed,
/// whether there are logs or a fault.
///
/// # Errors
///
/// Memory if it was refused to this thread or to a general. Otherwise Thread if a thread could not be
/// started, or if a neighbour ended early, which never happens in a run without another fault. Never Gone.
pub fn run_threads<R: Threads + Wait + Sync, G: Gate + Sync>(
    rt: &R,
    alloc: Global,
    scenario: &Scenario,
    capacity: usize,
    gate: &G,
) -> Result<Vec<SealedLog>, RunFault>
    requires { 0 < capacity }
    ensures logs { IfOk result (λ logs. logs.items ≡ logs_of_all scenario.now) }
    ensures fault { IfErr result IsAnsweredFault }
{
    let rings = open_rings(alloc, scenario)?;
    let (logs, _rings) = run_with_rings(rt, alloc, scenario, capacity, gate, rings)?;
    Ok(logs)
}
