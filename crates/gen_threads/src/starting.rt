//! How generals' threads are started.
ghost use Rattle.std.specs.Prelude.{◌≡◌, ◌<◌, ◌+◌, ◌≤◌, [], false, length, IfOk, IfErr, vec_len, vec_capacity};
ghost use Rattle.gen_threads.specs.Edges.{HasNewPasses};
ghost use Rattle.gen_threads.specs.HeldRings.{MayServe};
ghost use Rattle.gen_threads.specs.Works.{AreParts, ArePromised, AreWorks, HasRun, IsPromise, IsTurn, IsWork, TurnsFrom};

use crate::edges::{Edges, Passes};
use crate::ends::GeneralEnd;
use crate::gates::Gate;
use crate::held_rings::HeldRing;
use crate::run_parts::RunPart;
use crate::running::run_general;
use crate::works::{EndsAs, Field, Turn, Work};
use gen_scenario::Scenario;
use gen_types::GeneralNo;
use std::alloc::Global;
use std::snapshot::Snapshot;
use std::sync::Wait;
use std::sync::atomic::{AtomicBool, Ordering};
use std::thread::{PromisedHandle, Scope, Threads};

/// The handles of started threads.
pub(crate) type Handles<'s> = Vec<PromisedHandle<Turn, EndsAs<'s>>>;

/// Runs a general with its held ring. If it has a script, the ring is not used.
fn run_held<R: Wait, G: Gate>(
    rt: &R,
    alloc: Global,
    gate: &G,
    edges: &Edges,
    part: &RunPart,
    held: HeldRing,
    passes: Passes,
) -> GeneralEnd
    requires ring { MayServe part.now.scenario part.now.me held }
    requires passes { HasNewPasses edges.now part.now.scenario part.now.me passes }
    ensures { HasRun part.now.scenario part.now.me held result }
{
    let Passes { puts, takes } = passes;
    let ring = held.into_ring();
    match part.part().lines() {
        None => run_general(rt, alloc, gate, part, Some(ring), edges, puts, takes),
        Some(_) => run_general(rt, alloc, gate, part, None, edges, puts, takes).with_ring(ring),
    }
}

/// Runs a general and shows its logs to the gate, or hands its work back if its flag is set.
pub(crate) fn run_work<R: Wait, G: Gate>(
    rt: &R,
    alloc: Global,
    gate: &G,
    edges: &Edges,
    scenario: &Scenario,
    parts: &[RunPart],
    flags: &[AtomicBool],
    rings: &Snapshot<Vec<HeldRing>>,
    me: usize,
    work: Work,
) -> Turn
    requires me { me < scenario.now.net.generals }
    requires parts { AreParts scenario.now parts.now }
    requires flags { length flags.now ≡ scenario.now.net.generals }
    requires work { IsWork edges.now scenario.now rings.now.value.items me work }
    ensures { IsTurn edges.now scenario.now rings.now.value.items me result }
{
    if flags[me].load(Ordering::SeqCst) {
        return Turn::Back(work);
    }
    let Work { ring, passes } = work;
    let end = run_held(rt, alloc, gate, edges, &parts[me], ring, passes);
    if let Ok(logs) = &end.logs {
        gate.sealed(parts[me].part().me(), logs.as_slice());
    }
    Turn::Ended(end)
}

/// Starts a general's thread, unless an earlier one could not be started: then `stopped` is set.
///
/// # Errors
///
/// The general's work, if its thread was not started. If the thread can't be started, the general's flag is set.
fn start_one<'s, E, R: Threads + Wait + Sync, G: Gate + Sync>(
    rt: &'s R,
    alloc: Global,
    gate: &'s G,
    scope: &Scope<'s, E>,
    field: Field<'s>,
    me: usize,
    work: Work,
    stopped: bool,
) -> Result<PromisedHandle<Turn, EndsAs<'s>>, Turn>
    requires me { me < field.scenario.now.net.generals }
    requires parts { AreParts field.scenario.now field.parts.now }
    requires flags { length field.flags.now ≡ field.scenario.now.net.generals }
    requires work { IsWork field.edges.now field.scenario.now field.rings.now.value.items me work }
    ensures ok { IfOk result (λ h. IsPromise field.entry.edges.now field.entry.scenario.now
        field.entry.rings.now.value.items me h.promise) }
    ensures started { IfOk result (λ _. stopped ≡ false) }
    ensures err { IfErr result (IsTurn field.entry.edges.now field.entry.scenario.now
        field.entry.rings.now.value.items me) }
{
    if stopped {
        return Err(Turn::Back(work));
    }
    let Field {
        edges,
        scenario,
        parts,
        flags,
        rings,
    } = field;
    let promise = EndsAs {
        edges,
        scenario,
        rings,
        me,
    };
    match scope.spawn_with(
        promise,
        move || -> Turn
            requires { (me < scenario.now.net.generals) × AreParts scenario.now parts.now
                × (length flags.now ≡ scenario.now.net.generals)
                × IsWork edges.now scenario.now rings.now.value.items me work }
            ensures { IsTurn edges.entry.now scenario.entry.now rings.entry.now.value.items me result }
        {
            run_work(
                rt, alloc, gate, edges, scenario, parts, flags, rings, me, work,
            )
        },
    ) {
        Ok(handle) => Ok(handle),
        Err(refused) => {
            flags[me].store(true, Ordering::SeqCst);
            Err((refused.value)())
        }
    }
}

/// Starts the threads in ascending order of generals. After one that can't be started, no other is started.
/// Returns the handles of the threads that were started, and the works of the other generals.
pub(crate) fn start_all<'s, E, R: Threads + Wait + Sync, G: Gate + Sync>(
    rt: &'s R,
    alloc: Global,
    gate: &'s G,
    scope: &Scope<'s, E>,
    field: Field<'s>,
    works: Vec<Work>,
    handles: Handles<'s>,
    back: Vec<Turn>,
) -> (Handles<'s>, Vec<Turn>)
    requires parts { AreParts field.scenario.now field.parts.now }
    requires flags { length field.flags.now ≡ field.scenario.now.net.generals }
    requires works { AreWorks field.edges.now field.scenario.now field.rings.now.value.items works.items }
    requires empty { (handles.items ≡ []) × (back.items ≡ []) }
    requires room { (vec_len works ≤ vec_capacity handles) × (vec_len works ≤ vec_capacity back) }
    ensures count { vec_len result.0 + vec_len result.1 ≡ vec_len works }
    ensures promised { ArePromised field.entry.edges.now field.entry.scenario.now
        field.entry.rings.now.value.items result.0.items }
    ensures turns { TurnsFrom field.entry.edges.now field.entry.scenario.now
        field.entry.rings.now.value.items (vec_len result.0) result.1.items }
{
    let mut handles = handles;
    let mut back = back;
    let mut me = 0;
    let mut stopped = false;
    for work in works {
        match start_one(rt, alloc, gate, scope, field, me, work, stopped) {
            Ok(handle) => handles.push_reserved(handle),
            Err(turn) => {
                stopped = true;
                back.push_reserved(turn);
            }
        }
        me += 1;
    }
    (handles, back)
}
