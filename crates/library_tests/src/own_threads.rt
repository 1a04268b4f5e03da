//! Generals whose threads a caller starts, by public calls alone.
ghost use Rattle.std.specs.Prelude.{All, IfOk};
ghost use Rattle.gen_threads.specs.Edges.{AllHavePasses};
ghost use Rattle.library_tests.specs.Seats.{MayTakeSeat};

use crate::gates::{FEW, Meeting, Watch};
use crate::scenarios::{LINE, PAIR, is_same, logs_of_run, stage_of};
use gen_log::SealedLog;
use gen_scenario::Scenario;
use gen_threads::{Edges, Gate, GeneralEnd, Passes, RunPart, run_general};
use gen_types::GeneralNo;
use std::alloc::{AllocError, Global};
use std::sync::Wait;
use std::test::*;
use std::thread;
use std::thread::Threads;

/// A general before the first round: the number, and the passes.
#[derive(Drop)]
pub(crate) struct Seat {
    pub(crate) me: GeneralNo,
    pub(crate) passes: Passes,
}

/// How a general ended, or that no memory was left to begin.
type Ended = Result<GeneralEnd, AllocError>;

/// The seats of all generals, in ascending order.
pub(crate) fn seats_of(
    alloc: Global,
    scenario: &Scenario,
    edges: &Edges,
    all: Vec<Passes>,
) -> Result<Vec<Seat>, AllocError>
    requires { AllHavePasses edges.now scenario.now all.items }
    ensures { IfOk result
        (λ seats. All (λ seat. MayTakeSeat edges.now scenario.now seat.me seat.passes) seats.items) }
{
    let mut seats = Vec::new(alloc);
    let mut rest = all.into_iter();
    'generals: for number in 0..scenario.header().net().generals() {
        let me = GeneralNo::at(number);
        let Some(passes) = rest.next() else {
            return Ok(seats);
        };
        seats.push(Seat { me, passes })?;
    }
    Ok(seats)
}

/// A general runs from the first round to the last.
pub(crate) fn run_seat<R: Wait, G: Gate>(
    rt: &R,
    alloc: Global,
    gate: &G,
    scenario: &Scenario,
    edges: &Edges,
    seat: Seat,
) -> Ended
    requires { MayTakeSeat edges.now scenario.now seat.me seat.passes }
{
    let Seat { me, passes } = seat;
    let Passes { puts, takes } = passes;
    let part = RunPart::of(alloc, scenario, me)?;
    let ring = scenario.ring_if_loyal(me)?;
    Ok(run_general(rt, alloc, gate, &part, ring, edges, puts, takes))
}

/// All generals run, each in a thread of its own.
fn run_all<R: Threads + Wait + Sync, G: Gate + Sync>(
    rt: &R,
    alloc: Global,
    gate: &G,
    scenario: &Scenario,
    edges: &Edges,
    seats: Vec<Seat>,
) -> Result<Vec<Ended>, AllocError>
    requires { All (λ seat. MayTakeSeat edges.now scenario.now seat.me seat.passes) seats.items }
{
    thread::map_vec(
        rt,
        seats,
        &move |seat: Seat| -> Ended
            requires { MayTakeSeat edges.now scenario.now seat.me seat.passes }
        { run_seat(rt, alloc, gate, scenario, edges, seat) },
    )
}

/// How the generals of a scenario end who run over edges that hold one frame.
fn ends_of<R: Threads + Wait + Sync, G: Gate + Sync>(
    rt: &R,
    alloc: Global,
    scenario: &Scenario,
    gate: &G,
) -> Result<Vec<Ended>, AllocError> {
    let (edges, all) = Edges::new(alloc, scenario, 1)?;
    let seats = seats_of(alloc, scenario, &edges, all)?;
    run_all(rt, alloc, gate, scenario, &edges, seats)
}

/// Whether a general ended with this log alone.
fn has_log(ended: &Ended, log: &SealedLog) -> bool {
    let Ok(end) = ended else {
        return false;
    };
    match &end.logs {
        Ok(logs) => logs.len() == 1 && logs.iter().all(|own| is_same(own, log)),
        Err(_) => false,
    }
}

/// Whether all generals end with the logs of the scenario's run, one each.
fn end_alike<R: Threads + Wait + Sync, G: Gate + Sync>(
    rt: &R,
    alloc: Global,
    scenario: &Scenario,
    gate: &G,
) -> Result<bool, Fail> {
    let ends = ends_of(rt, alloc, scenario, gate)?;
    let logs = logs_of_run(alloc, scenario)?;
    let same = ends.len() == logs.len();
    Ok(
        same && ends
            .iter()
            .zip(logs.as_slice())
            .all(|(end, log)| has_log(end, log)),
    )
}

/// Generals 0 and 1 each wait, before round 1, until the other is there too.
#[test]
fn a_pair_meets_in_threads_of_its_own(rt: HostRuntime) -> Result<(), Fail> {
    let stage = stage_of(rt.alloc(), PAIR)?;
    let scenario = &stage.scenario;
    let gate = Meeting::new();
    assert!(rt; end_alike(&rt, rt.alloc(), scenario, &gate)? && gate.has_met());
    Ok(())
}

/// General 1 waits for the frame that general 0 puts in round 2, and generals 2 and 3 wait with it.
#[test]
fn a_line_waits_in_threads_of_its_own(rt: HostRuntime) -> Result<(), Fail> {
    let stage = stage_of(rt.alloc(), LINE)?;
    let scenario = &stage.scenario;
    let gate = Watch::new((0, 2), (1, 3), FEW);
    assert!(rt; end_alike(&rt, rt.alloc(), scenario, &gate)? && gate.has_waited());
    Ok(())
}
