//! Runs in threads: that generals run at once and wait for each other's frames.
use crate::gates::{FEW, Meeting, Watch};
use crate::scenarios::{LINE, PAIR, are_same, logs_of_run, stage_of};
use gen_scenario::Scenario;
use gen_threads::{Gate, run_threads};
use std::alloc::Global;
use std::sync::Wait;
use std::test::*;
use std::thread::Threads;

/// Whether a run in threads, over edges that hold so many frames, has the logs of the scenario's run.
fn runs_alike<R: Threads + Wait + Sync, G: Gate + Sync>(
    rt: &R,
    alloc: Global,
    scenario: &Scenario,
    capacity: usize,
    gate: &G,
) -> Result<bool, Fail> {
    if capacity == 0 {
        return Err("no room".into());
    }
    let logs = run_threads(rt, alloc, scenario, capacity, gate)?;
    let wanted = logs_of_run(alloc, scenario)?;
    Ok(are_same(logs.as_slice(), wanted.as_slice()))
}

#[test]
fn generals_run_at_once(rt: HostRuntime) -> Result<(), Fail> {
    let stage = stage_of(rt.alloc(), PAIR)?;
    let scenario = &stage.scenario;
    let gate = Meeting::new();
    assert!(rt; runs_alike(&rt, rt.alloc(), scenario, 1, &gate)? && gate.has_met());
    Ok(())
}

#[test]
fn generals_wait_for_frames(rt: HostRuntime) -> Result<(), Fail> {
    let stage = stage_of(rt.alloc(), LINE)?;
    let scenario = &stage.scenario;
    let gate = Watch::new((0, 2), (1, 3), FEW);
    assert!(rt; runs_alike(&rt, rt.alloc(), scenario, 16, &gate)? && gate.has_waited());
    Ok(())
}
