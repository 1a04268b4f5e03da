//! Whether a network withstands the faulty generals that its run is planned for.
ghost use Rattle.std.specs.Prelude.{ℕ, ◌≡◌, ◌≤◌, ◌<◌, ◌^◌, length, IfSome, IfNone};
ghost use Rattle.gen_plan.specs.Plans.{AreJoinedBy, Withstands, IsFirstCut, IsLeastDiameter, IsMostTraitors};
ghost use Rattle.gen_net.specs.Network.{IsNetwork};
ghost use Rattle.gen_plan.specs.PlanResults.{IsPlanResult};
ghost use Rattle.gen_plan.specs.Loops.Cuts.{IsFirstOfSize, AllOfSizeStand};

use crate::graph::Graph;
use crate::search::first_apart;
use gen_net::Net;
use gen_types::limits::GREATEST_DIAMETER;
use gen_types::{GeneralNo, GeneralSet};

/// Why a plan fails, and what would do in its place.
#[derive(Clone, Copy, Debug, PartialEq, Eq)]
pub struct PlanFailure {
    /// The first set of at most m generals without whom two others are not joined by at most d edges. Sets of fewer
    /// generals come first, and of two sets with as many that with the less number, in which bit g stands for general g.
    pub faulty: GeneralSet,
    /// The lesser general of the least such pair.
    pub a: GeneralNo,
    /// The greater general of this pair.
    pub b: GeneralNo,
    /// The least d that would do with this m, or None if none would: some m generals cut two others apart.
    pub least_diameter: Option<u8>,
    /// The greatest m that would do with this d, or None if not even m = 0 would.
    pub most_traitors: Option<u8>,
}

/// Whether a plan holds: whichever at most m generals are faulty, any two others are joined by at most d edges through
/// others.
#[derive(Clone, Copy, Debug, PartialEq, Eq)]
pub enum PlanResult {
    /// The plan holds.
    Holds,
    /// It fails.
    Fails(PlanFailure),
}

/// Faulty generals, and two others who are not joined by few edges.
#[derive(Clone, Copy)]
struct Cut {
    faulty: GeneralSet,
    a: GeneralNo,
    b: GeneralNo,
}

/// Returns the first set of `count` generals that leaves a pair that is not joined by at most `diameter` edges.
fn first_of_size(graph: &Graph, count: usize, diameter: u8) -> Option<Cut>
    ensures some { IfSome result (IsFirstOfSize graph.now count diameter) }
    ensures none { IfNone result (AllOfSizeStand graph.now count diameter) }
{
    let number_of_sets = 1u32 << graph.generals();
    for bits in 0..number_of_sets {
        let faulty = GeneralSet::from_bits(bits as u16);
        if faulty.len() != count {
            continue;
        }
        if let Some((a, b)) = first_apart(graph, &faulty, diameter) {
            return Some(Cut { faulty, a, b });
        }
    }
    None
}

/// Returns the first set of at most `traitors` generals that leaves a pair that is not joined by at most `diameter`
/// edges.
fn first_cut(graph: &Graph, traitors: u8, diameter: u8) -> Option<Cut>
    ensures some { IfSome result (λ cut. (length cut.faulty ≤ traitors)
        × IsFirstCut graph.now diameter cut.faulty cut.a cut.b) }
    ensures none { IfNone result (Withstands graph.now traitors diameter) }
{
    for count in 0..usize::from(traitors) + 1 {
        if let Some(cut) = first_of_size(graph, count, diameter) {
            return Some(cut);
        }
    }
    None
}

/// Returns the least diameter of at most 15 that would do with this many faulty generals, where `diameter` would not.
fn least_diameter(graph: &Graph, traitors: u8, diameter: u8) -> Option<u8>
    requires network { IsNetwork graph.now }
    requires fails { Withstands graph.now traitors diameter → ⊥ }
    ensures { IsLeastDiameter graph.now traitors result }
{
    for more in diameter..GREATEST_DIAMETER {
        let Some(_cut) = first_cut(graph, traitors, more + 1) else {
            return Some(more + 1);
        };
    }
    None
}

/// Says whether the plan of a network holds: whichever at most m of its generals are faulty, any two others are joined by
/// at most d edges through others. It takes no memory.
pub fn plan_of(net: &Net) -> PlanResult
    ensures { IsPlanResult net.now result }
{
    let graph = Graph::of(net);
    let traitors = net.traitors();
    let diameter = net.diameter();
    let Some(cut) = first_cut(&graph, traitors, diameter) else {
        return PlanResult::Holds;
    };
    PlanResult::Fails(PlanFailure {
        faulty: cut.faulty,
        a: cut.a,
        b: cut.b,
        least_diameter: least_diameter(&graph, traitors, diameter),
        most_traitors: (cut.faulty.len() as u8).checked_sub(1),
    })
}
