//! The search for generals that short walks join inside the rest.
ghost use Rattle.std.specs.Prelude.{ℕ, ◌≡◌, ◌<◌, ◌⊎◌, ◌↔◌, IsTrue, Contains, IfSome, IfNone};
ghost use Rattle.gen_net.specs.Network.{IsLoyal, IsNetwork};
ghost use Rattle.gen_types.specs.Ascending.{IsListOf};
ghost use Rattle.gen_plan.specs.Plans.{IsJoinedBy, AreJoinedBy, IsLeastApart};
ghost use Rattle.gen_plan.specs.Loops.Search.{IsStep, IsBehindApart, IsLeastApartFrom};

use crate::graph::Graph;
use gen_types::{GeneralNo, GeneralSet};

/// Returns the set of the members of a and of b.
fn either(a: &GeneralSet, b: &GeneralSet) -> GeneralSet
    ensures { IsListOf result (λ v. Contains a.now v ⊎ Contains b.now v) }
{
    GeneralSet::from_bits(a.bits() | b.bits())
}

/// Returns the set with each general from which an edge leads to a member that is of the rest.
fn spread(graph: &Graph, faulty: &GeneralSet, set: &GeneralSet) -> GeneralSet
    ensures wider { IsListOf result (λ a.
        Contains set.now a ⊎ ((via : ℕ) × IsStep graph.now faulty.now set.now a via)) }
    ensures network { IsNetwork graph.now }
{
    let mut steps = GeneralSet::new();
    for number in 0..graph.generals() {
        let via = GeneralNo::at(number);
        if set.contains(via) && !faulty.contains(via) {
            steps = either(&steps, &graph.neighbours(via));
        }
    }
    either(set, &steps)
}

/// Returns the set of the generals from which a walk of at most `most` edges leads to the general `to` inside the rest.
pub(crate) fn joined_to(graph: &Graph, faulty: &GeneralSet, to: GeneralNo, most: u8) -> GeneralSet
    ensures { IsListOf result (λ a. IsJoinedBy graph.now faulty.now most a to) }
{
    let mut set = GeneralSet::only(to);
    for edges in 0..most {
        set = spread(graph, faulty, &set);
    }
    set
}

/// Returns the least general of the rest behind the general a that no walk of at most `most` edges joins to it, if a is
/// of the rest and there is such a general.
fn first_apart_from(graph: &Graph, faulty: &GeneralSet, a: GeneralNo, most: u8) -> Option<GeneralNo>
    requires { a < graph.now.generals }
    ensures some { IfSome result (IsLeastApartFrom graph.now faulty.now most a) }
    ensures none { IfNone result ((b : ℕ) → a < b →
        IsLoyal graph.now faulty.now a → IsLoyal graph.now faulty.now b → IsJoinedBy graph.now faulty.now most a b) }
{
    if faulty.contains(a) {
        return None;
    }
    let joined = joined_to(graph, faulty, a, most);
    for number in 0..graph.generals() {
        let b = GeneralNo::at(number);
        if a.get() < b.get() && !faulty.contains(b) && !joined.contains(b) {
            return Some(b);
        }
    }
    None
}

/// Returns the least pair a < b of the rest that no walk of at most `most` edges joins, if there is one.
pub(crate) fn first_apart(
    graph: &Graph,
    faulty: &GeneralSet,
    most: u8,
) -> Option<(GeneralNo, GeneralNo)>
    ensures some { IfSome result (λ pair. IsLeastApart graph.now faulty.now most pair.0 pair.1) }
    ensures none { IfNone result (AreJoinedBy graph.now faulty.now most) }
{
    for number in 0..graph.generals() {
        let a = GeneralNo::at(number);
        if let Some(b) = first_apart_from(graph, faulty, a, most) {
            return Some((a, b));
        }
    }
    None
}
