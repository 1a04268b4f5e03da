//! The first two generals of the rest that no short walk joins.
ghost use Rattle.std.specs.Prelude.{◌≡◌, IfNone, IfSome};
ghost use Rattle.gen_net.specs.Walks.{HasDiameter};
ghost use Rattle.gen_plan.specs.Parted.{parted_pair};
ghost use Rattle.gen_plan.specs.Plans.{IsLeastApart};

use crate::graph::Graph;
use crate::search::first_apart;
use gen_net::Net;
use gen_types::{GeneralNo, GeneralSet};

/// Returns the least pair a < b of the generals that are not faulty which no walk of at most d edges through such
/// generals joins, or None if each pair is joined. It takes no memory.
pub fn parted_pair(net: &Net, faulty: &GeneralSet) -> Option<(GeneralNo, GeneralNo)>
    ensures value { result ≡ parted_pair net.now faulty.now }
    // The pair is the least of the rest that no walk of at most d edges inside the rest joins.
    ensures least { IfSome result (λ pair. IsLeastApart net.now faulty.now net.now.diameter pair.0 pair.1) }
    // If there is no pair, such a walk joins any two of the rest.
    ensures none { IfNone result (HasDiameter net.now faulty.now) }
{
    let graph = Graph::of(net);
    first_apart(&graph, faulty, net.diameter())
}
