//! Which generals and which edges are inside a set of generals.
ghost use Rattle.std.specs.Prelude.{IsTrue, ◌↔◌};
ghost use Rattle.gen_walks.specs.Walks.{IsInside, AreJoined};

use gen_net::Net;
use gen_types::{GeneralNo, GeneralSet};

/// Returns whether the general is one of the network and of the set.
pub(crate) fn is_inside(net: &Net, rest: &GeneralSet, general: GeneralNo) -> bool
    ensures { IsTrue result ↔ IsInside net.now rest.now general }
{
    general.get() < net.generals() && rest.contains(general)
}

/// Returns whether an edge inside the set joins a and b.
pub(crate) fn are_joined(net: &Net, rest: &GeneralSet, a: GeneralNo, b: GeneralNo) -> bool
    ensures { IsTrue result ↔ AreJoined net.now rest.now a b }
{
    net.has_edge(a, b) && is_inside(net, rest, a) && is_inside(net, rest, b)
}
