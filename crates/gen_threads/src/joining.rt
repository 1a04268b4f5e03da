//! How a run of threads ends.
ghost use Rattle.std.specs.Prelude.{ℕ, ◌≡◌, ◌<◌, ◌+◌, ◌++◌, ◌≤◌, ◌⊎◌, List, [], length, Err, IfErr, IfOk, MatchResult, Ok, OnOk, vec_len, vec_capacity};
ghost use Rattle.gen_tree.specs.Rings.{Ring};
ghost use Rattle.gen_scenario.specs.Rows.{logs_of_all};
ghost use Rattle.gen_scenario.specs.Scenario as scenarios;
ghost use Rattle.gen_threads.specs.Ending.{logs_by};
ghost use Rattle.gen_threads.specs.Faults.{IsAnswerTo, IsAnsweredFault, answered_fault, outcome_of, outcome_of_turn, worse_of};
ghost use Rattle.gen_threads.specs.declared.ends.RunFault.TheVariants.{Memory};
ghost use Rattle.gen_threads.specs.HeldRings.{AreAfterRun, ring_in};
ghost use Rattle.gen_threads.specs.Works.{AreParts, ArePromised, HasMoreRing, IsTurn, TurnsFrom};
ghost use Rattle.gen_threads.specs.declared.edges.Edges.{Edges as AllEdges};

use crate::edges::Edges;
use crate::ends::RunFault;
use crate::held_rings::HeldRing;
use crate::run_parts::RunPart;
use crate::starting::Handles;
use crate::stopping::stop_once;
use crate::works::{Field, Turn};
use gen_log::SealedLog;
use gen_scenario::Scenario;
use std::snapshot::Snapshot;
use std::sync::Wait;
use std::thread;
use std::thread::Threads;

/// Does one turn for a general whose thread was not started, and returns whether nothing is left to do for
/// it.
pub(crate) fn stop_turn<R: Wait>(
    rt: &R,
    edges: &Edges,
    part: &RunPart,
    rings: &Snapshot<Vec<HeldRing>>,
    turn: &mut Turn,
) -> bool
    requires { IsTurn edges.now part.now.scenario rings.now.value.items part.now.me turn.old }
    ensures { IsTurn edges.now part.now.scenario rings.now.value.items part.now.me turn.new }
{
    match turn {
        Turn::Ended(_) => true,
        Turn::Back(work) => {
            let known = part.part();
            let net = known.header().net();
            stop_once(
                rt,
                edges,
                known.me(),
                net,
                &mut work.passes.puts,
                &mut work.passes.takes,
            )
        }
    }
}

/// Ends the edges of all generals whose threads were not started, which are the generals from `first` on. It
/// does their turns one after another, again and again, until nothing is left to do.
pub(crate) fn stop_all<R: Wait>(rt: &R, field: Field, first: usize, back: &mut Vec<Turn>)
    requires parts { AreParts field.scenario.now field.parts.now }
    requires count { first + length back.old.items ≡ field.scenario.now.net.generals }
    requires turns { TurnsFrom field.edges.now field.scenario.now field.rings.now.value.items first back.old.items }
    ensures count { length back.new.items ≡ length back.old.items }
    ensures turns { TurnsFrom field.entry.edges.now field.entry.scenario.now
        field.entry.rings.now.value.items first back.new.items }
{
    for _ in rt.forever() {
        let mut over = true;
        'turns: for index in 0..back.len() {
            let one = stop_turn(
                rt,
                field.edges,
                &field.parts[first + index],
                field.rings,
                &mut back[index],
            );
            over = over && one;
        }
        if over {
            return;
        }
        thread::yield_now();
    }
    unreachable!()
}

/// Joins the threads in ascending order of generals, and appends what came back of the generals whose threads
/// were not started.
pub(crate) fn join_all<'s, R: Threads>(
    rt: &R,
    field: Field<'s>,
    handles: Handles<'s>,
    back: Vec<Turn>,
    turns: Vec<Turn>,
) -> Vec<Turn>
    requires promised { ArePromised field.edges.now field.scenario.now field.rings.now.value.items handles.items }
    requires back { TurnsFrom field.edges.now field.scenario.now field.rings.now.value.items
        (vec_len handles) back.items }
    requires room { (turns.items ≡ []) × (vec_len handles + vec_len back ≤ vec_capacity turns) }
    ensures count { vec_len result ≡ vec_len handles.entry + vec_len back }
    ensures turns { TurnsFrom field.entry.edges.now field.entry.scenario.now
        field.entry.rings.now.value.items 0 result.items }
{
    let mut turns = turns;
    for handle in handles {
        turns.push_reserved(handle.join(rt));
    }
    for turn in back {
        turns.push_reserved(turn);
    }
    turns
}

/// Returns the worse of two outcomes: Memory is worse than Thread, Thread is worse than Gone, and any fault
/// is worse than none.
fn worse(first: Result<(), RunFault>, second: Result<(), RunFault>) -> Result<(), RunFault>
    ensures { result ≡ worse_of first second }
{
    match (first, second) {
        (Ok(()), _) => second,
        (_, Ok(())) => first,
        (Err(RunFault::Memory), _) | (_, Err(RunFault::Memory)) => Err(RunFault::Memory),
        (Err(RunFault::Thread), _) | (_, Err(RunFault::Thread)) => Err(RunFault::Thread),
        (Err(RunFault::Gone), Err(RunFault::Gone)) => Err(RunFault::Gone),
    }
}

/// Returns the fault that a run answers if this is the worst fault of its generals: the early end of a
/// neighbour is answered as a thread that was not started.
fn answered(fault: RunFault) -> RunFault
    ensures { result ≡ answered_fault fault }
{
    match fault {
        RunFault::Memory => RunFault::Memory,
        RunFault::Thread | RunFault::Gone => RunFault::Thread,
    }
}

/// Appends a general's logs and its ring, or returns why it has no logs.
fn gather_one(
    turn: Turn,
    logs: &mut Vec<SealedLog>,
    rings: &mut Vec<HeldRing>,
) -> Result<(), RunFault>
    ensures logs { (edges : AllEdges) (s : scenarios.Scenario) (held : List Ring) (g : ℕ) → IsTurn edges s held g turn
        → OnOk result (logs.new.items ≡ logs.old.items ++ logs_by s g) }
    ensures rings { (edges : AllEdges) (s : scenarios.Scenario) (held : List Ring) (g : ℕ) → IsTurn edges s held g turn
        → OnOk result (HasMoreRing s g (ring_in held g) rings.old.items rings.new.items) }
    ensures outcome { (result ≡ outcome_of_turn turn) ⊎ (result ≡ Err Memory) }
{
    match turn {
        Turn::Ended(end) => {
            let (logs_or_fault, ring) = end.into_logs();
            let mut own = logs_or_fault?;
            if let Some(ring) = ring {
                rings.reserve(1)?;
                rings.push_reserved(ring);
            }
            logs.append(&mut own)?;
            Ok(())
        }
        Turn::Back(_) => Err(RunFault::Thread),
    }
}

/// Returns the logs and the rings of all generals, in ascending order of generals. If a general has a fault,
/// the result is the fault that the run answers, that of the worst of them, or Memory if memory is refused.
pub(crate) fn gather(
    scenario: &Scenario,
    edges: &Edges,
    held: &Snapshot<Vec<HeldRing>>,
    turns: Vec<Turn>,
    logs: Vec<SealedLog>,
    rings: Vec<HeldRing>,
) -> Result<(Vec<SealedLog>, Vec<HeldRing>), RunFault>
    requires count { vec_len turns ≡ scenario.now.net.generals }
    requires turns { TurnsFrom edges.now scenario.now held.now.value.items 0 turns.items }
    requires empty { (logs.items ≡ []) × (rings.items ≡ []) }
    ensures logs { IfOk result (λ r. r.0.items ≡ logs_of_all scenario.now) }
    ensures rings { IfOk result (λ r. AreAfterRun scenario.now held.now.value.items r.1.items) }
    ensures fault { IfErr result IsAnsweredFault }
    ensures outcome { MatchResult result (λ _. outcome_of turns.items ≡ Ok tt) (IsAnswerTo (outcome_of turns.items)) }
{
    let mut logs = logs;
    let mut rings = rings;
    let mut outcome = Ok(());
    for turn in turns {
        outcome = worse(outcome, gather_one(turn, &mut logs, &mut rings));
    }
    match outcome {
        Ok(()) => Ok((logs, rings)),
        Err(fault) => Err(answered(fault)),
    }
}
