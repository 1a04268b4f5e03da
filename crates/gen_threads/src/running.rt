//! The thread of one general.
ghost use Rattle.std.specs.Prelude.{◌≡◌, IfOk, IfErr, MatchResult, OnOk};
ghost use Rattle.gen_net.specs.Network.{rounds};
ghost use Rattle.gen_scenario.specs.Scenario.{header_of};
ghost use Rattle.gen_scenario.specs.WorldLogs.{logs_of};
ghost use Rattle.gen_threads.specs.declared.ends.RunFault.TheVariants.{Memory};
ghost use Rattle.gen_threads.specs.Edges.{ArePassesOf, HaveCarried};
ghost use Rattle.gen_threads.specs.Ending.{IsEndOf, MayRunWith, RingComesBack, logs_by};
ghost use Rattle.gen_threads.specs.Faults.{IsOwnFault};
ghost use Rattle.gen_threads.specs.Rings.{RingSpentOn};
ghost use Rattle.gen_threads.specs.Turns.{AreOver};

use crate::edges::Edges;
use crate::ends::{GeneralEnd, RunFault};
use crate::gates::Gate;
use crate::rounds::run_round;
use crate::run_parts::RunPart;
use crate::stopping::stop;
use gen_edge::{PutPass, TakePass};
use gen_general::{Finished, Recorder};
use gen_log::SealedLog;
use gen_tree::KeyRing;
use std::alloc::Global;
use std::sync::Wait;

/// Runs all rounds, and ends the general with its logs.
///
/// # Errors
///
/// The fault, and the ring.
fn run_to_end<R: Wait, G: Gate>(
    rt: &R,
    alloc: Global,
    gate: &G,
    part: &RunPart,
    ring: Option<KeyRing>,
    edges: &Edges,
    puts: &mut Vec<PutPass>,
    takes: &mut Vec<TakePass>,
) -> Result<Finished, (RunFault, Option<KeyRing>)>
    requires ring { MayRunWith part.now.scenario part.now.me ring }
    requires passes { HaveCarried edges.now part.now.scenario 0 part.now.me puts.old.items takes.old.items }
    ensures ring { MatchResult result
        (λ end. RingComesBack (header_of part.now.scenario) ring end.ring)
        (λ fault. RingComesBack (header_of part.now.scenario) ring fault.1) }
    ensures logs { IfOk result (λ end. end.logs ≡ logs_by part.now.scenario part.now.me) }
    ensures spent { IfOk result (λ end. RingSpentOn (header_of part.now.scenario)
        (logs_of part.now.scenario part.now.me) ring end.ring) }
    ensures carried { OnOk result (HaveCarried edges.now part.now.scenario (rounds part.now.scenario.net)
        part.now.me puts.new.items takes.new.items) }
    ensures passes { ArePassesOf edges.now part.now.scenario part.now.me puts.new.items takes.new.items }
    ensures fault { IfErr result (λ fault. IsOwnFault takes.new.items fault.0) }
{
    let Ok(known) = part.part().clone() else {
        return Err((RunFault::Memory, ring));
    };
    let mut recorder = match Recorder::new(alloc, known, ring) {
        Ok(recorder) => recorder,
        Err(ring) => return Err((RunFault::Memory, ring)),
    };
    let me = part.part().me();
    'rounds: for gone in 0..part.part().header().net().rounds() {
        gate.before_round(me, gone + 1);
        if let Err(fault) = run_round(rt, alloc, part, edges, gone, &mut recorder, puts, takes) {
            return Err((fault, recorder.close()));
        }
    }
    match recorder.finish(alloc) {
        Ok(end) => Ok(end),
        Err(ring) => Err((RunFault::Memory, ring)),
    }
}

/// Returns the logs of a general with bytes that several owners can share from now on, or the fault Memory if
/// memory is refused.
fn shared_logs(alloc: Global, logs: Vec<SealedLog>) -> Result<Vec<SealedLog>, RunFault>
    ensures logs { IfOk result (λ shared. shared.items ≡ logs.items) }
    ensures fault { IfErr result (λ fault. fault ≡ Memory) }
{
    let mut shared = Vec::with_capacity(alloc, logs.len())?;
    for log in logs {
        shared.push_reserved(log.into_shared()?);
    }
    Ok(shared)
}

/// Runs a general from its first round to its last. In each round the gate is called, the general signs, puts
/// a frame to each neighbour in ascending order, and takes one from each in ascending order. It knows only
/// its own part, and tries again when an edge is full or empty. It needs a ring if and only if it has no
/// script: the ring of its seed, from which no leaf of the run was taken. The passes must be the general's,
/// and nothing may have been put or taken by them.
///
/// A general that can't go on tells its neighbours. It tries in turns to put the last word on each edge from
/// it that hasn't had all frames, and takes what comes, until each edge to it has given its last frame or
/// word.
///
/// The ring and the passes come back in every case. If the general has logs, the leaves that were taken from
/// the ring are exactly those of what it signed in them, and the bytes of the logs can be shared. Its fault
/// is Memory, or Gone if one of its passes has taken the last word of a neighbour; it is never Thread.
pub fn run_general<R: Wait, G: Gate>(
    rt: &R,
    alloc: Global,
    gate: &G,
    part: &RunPart,
    ring: Option<KeyRing>,
    edges: &Edges,
    puts: Vec<PutPass>,
    takes: Vec<TakePass>,
) -> GeneralEnd
    requires ring { MayRunWith part.now.scenario part.now.me ring }
    requires passes { HaveCarried edges.now part.now.scenario 0 part.now.me puts.items takes.items }
    ensures end { IsEndOf edges.now part.now.scenario part.now.me ring result }
    ensures over { AreOver (rounds part.now.scenario.net) result.puts.items result.takes.items }
{
    let mut puts = puts;
    let mut takes = takes;
    match run_to_end(rt, alloc, gate, part, ring, edges, &mut puts, &mut takes) {
        Ok(end) => {
            let (logs, ring) = end.into_parts();
            GeneralEnd {
                logs: shared_logs(alloc, logs),
                ring,
                puts,
                takes,
            }
        }
        Err((fault, ring)) => {
            let known = part.part();
            stop(
                rt,
                edges,
                known.me(),
                known.header().net(),
                &mut puts,
                &mut takes,
            );
            GeneralEnd {
                logs: Err(fault),
                ring,
                puts,
                takes,
            }
        }
    }
}
