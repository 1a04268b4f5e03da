//! The runs of a system as facts.
ghost use Rattle.std.specs.Prelude.{◌≡◌, ◌++◌, OnOk, map};
ghost use Rattle.gen_enrolling.specs.Admitted.{told_run};
ghost use Rattle.sm_embed.specs.RunFacts.{facts_of, node_fact, run_facts, system_fact};

use gen_enrolling::AdmittedRun;
use gen_facts::{Fact, across_fact};
use gen_types::GeneralNo;
use gen_types::limits::MOST_GENERALS;
use std::alloc::AllocError;

/// The kind of the fact of a run of a system. Lesser kinds are those of `gen_facts`.
const SYSTEM: u32 = 10;

/// The kind of the fact of the node that a general is.
const NODE: u32 = 11;

/// The most runs that a set of keys serves.
const MOST_RUNS: usize = 4;

/// Returns the fact of the run at a place: its number in the system, and the id of the system.
pub(crate) fn system_fact(run: u32, number: u32, system: &[u8; 32]) -> Fact
    ensures { result ≡ system_fact run number system.now }
{
    Fact {
        kind: SYSTEM,
        run,
        general: 0,
        other: 0,
        number,
        order: 0,
        round: 0,
        log_fault: 0,
        chain_fault: 0,
        generals: 0,
        traitors: 0,
        set: 0,
        entry: 0,
        run_id: *system,
    }
}

/// Returns the fact of the node that a general of the run at a place is.
fn node_fact(run: u32, general: GeneralNo, node: GeneralNo) -> Fact
    ensures { result ≡ node_fact run general node }
{
    Fact {
        kind: NODE,
        ..across_fact(general, run, u32::from(node.get()))
    }
}

/// Appends the facts of the run at a place: its number with the id of the system, and the node that each general is.
fn push_run(
    facts: &mut Vec<Fact>,
    run: u32,
    number: u32,
    system: &[u8; 32],
    nodes: &[GeneralNo],
) -> Result<(), AllocError>
    ensures { OnOk result
        (facts.new.items ≡ facts.old.items ++ run_facts run number system.now nodes.now) }
{
    facts.push(system_fact(run, number, system))?;
    let few = nodes.len().min(usize::from(MOST_GENERALS)) as u8;
    'generals: for general in 0..few {
        let node = nodes[usize::from(general)];
        facts.push(node_fact(run, GeneralNo::at(general), node))?;
    }
    Ok(())
}

/// Appends the facts of runs that are admitted, ascending by their numbers.
pub(crate) fn push_runs(
    facts: &mut Vec<Fact>,
    system: &[u8; 32],
    runs: &[AdmittedRun],
) -> Result<(), AllocError>
    ensures { OnOk result (facts.new.items
        ≡ facts.old.items ++ facts_of system.now (map told_run runs.now)) }
{
    let few = runs.len().min(MOST_RUNS) as u32;
    'places: for place in 0..few {
        let told = &runs[place as usize];
        push_run(facts, place, told.number, system, &told.nodes)?;
    }
    Ok(())
}
