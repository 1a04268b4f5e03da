//! What a general's thread is started with, and what comes of it.
ghost use Rattle.std.specs.Prelude.{◌≡◌, ◌<◌, ◌+◌, IfOk};
ghost use Rattle.gen_scenario.specs.AllAre.{AllAre};
ghost use Rattle.gen_threads.specs.HeldRings.{MayServe};
ghost use Rattle.gen_threads.specs.Works.{AreParts, AreWorks};

use crate::edges::{Edges, Passes};
use crate::ends::GeneralEnd;
use crate::held_rings::HeldRing;
use crate::run_parts::RunPart;
use gen_scenario::Scenario;
use gen_types::GeneralNo;
use std::alloc::{AllocError, Global};
use std::snapshot::Snapshot;
use std::sync::atomic::AtomicBool;
use std::thread::Promise;

/// A general's ring and passes, before its thread is started.
#[derive(Drop)]
pub(crate) struct Work {
    pub(crate) ring: HeldRing,
    pub(crate) passes: Passes,
}

/// What comes of a general: its end, or its work if its thread could not be started.
#[derive(Drop)]
pub(crate) enum Turn {
    Ended(GeneralEnd),
    Back(Work),
}

/// What all threads share. A set flag says that the general's thread was not started. The rings that were
/// handed in are there in contracts only.
#[derive(Clone, Copy)]
pub(crate) struct Field<'a> {
    pub(crate) edges: &'a Edges,
    pub(crate) scenario: &'a Scenario,
    pub(crate) parts: &'a [RunPart],
    pub(crate) flags: &'a [AtomicBool],
    pub(crate) rings: &'a Snapshot<Vec<HeldRing>>,
}

/// The promise that this general ends as in the scenario's run, with the ring that was handed in for it.
#[derive(Clone, Copy)]
pub(crate) struct EndsAs<'a> {
    pub(crate) edges: &'a Edges,
    pub(crate) scenario: &'a Scenario,
    pub(crate) rings: &'a Snapshot<Vec<HeldRing>>,
    pub(crate) me: usize,
}

impl<'a> Promise<Turn> for EndsAs<'a> {
    ghost use Rattle.gen_threads.specs.Works.{IsTurn};

    ghost kept_by = { λ p t. IsTurn p.edges.now p.scenario.now p.rings.now.value.items p.me t };
}

/// Returns what each general knows, in ascending order of generals.
pub(crate) fn make_parts(alloc: Global, scenario: &Scenario) -> Result<Vec<RunPart>, AllocError>
    ensures { IfOk result (λ parts. AreParts scenario.now parts.items) }
{
    let generals = scenario.header().net().generals();
    let mut parts = Vec::with_capacity(alloc, usize::from(generals))?;
    'generals: for number in 0..generals {
        parts.push(RunPart::of(alloc, scenario, GeneralNo::at(number))?)?;
    }
    Ok(parts)
}

/// Makes the edges, each with room for this many frames, and gives each general its ring and its passes.
pub(crate) fn make_works(
    alloc: Global,
    scenario: &Scenario,
    capacity: usize,
    rings: Vec<HeldRing>,
) -> Result<(Edges, Vec<Work>), AllocError>
    requires capacity { 0 < capacity }
    requires rings { AllAre (MayServe scenario.now) scenario.now.net.generals rings.items }
    ensures { IfOk result (λ made. AreWorks made.0 scenario.now rings.items made.1.items) }
{
    let (edges, all) = Edges::new(alloc, scenario, capacity)?;
    let mut works = Vec::with_capacity(alloc, all.len())?;
    let mut others = rings.into_iter();
    'works: for passes in all {
        if let Some(ring) = others.next() {
            works.push_reserved(Work { ring, passes });
        }
    }
    Ok((edges, works))
}
