//! The graph of a network, made ready for a search.
ghost use Rattle.std.specs.Prelude.{◌≡◌, ◌<◌};
ghost use Rattle.gen_net.specs.Network.{AreNeighbours, IsNetwork};
ghost use Rattle.gen_types.specs.Ascending.{IsListOf};

use gen_net::Net;
use gen_types::limits::MOST_GENERALS;
use gen_types::{GeneralNo, GeneralSet};
use std::marker::Model;
use std::snapshot::Snapshot;

/// The number of sets of neighbours, one for each general of the largest network.
const GENERALS: usize = MOST_GENERALS as usize;

/// A network with the set of the neighbours of each general at hand. A contract sees the network.
#[derive(Drop)]
pub(crate) struct Graph {
    net: Snapshot<Net>,
    generals: u8,
    neighbours: [u16; GENERALS],
}

impl Model for Graph {
    ghost use Rattle.gen_net.specs.Network.{Network};
    ghost use Rattle.gen_plan.specs.Loops.Search.{IsGraph};

    ghost Value = { Network };

    ghost view = { λ graph. graph.net.value };

    ghost invariant = { λ graph. IsGraph graph.net.value graph.generals graph.neighbours };
}

impl Graph {
    /// Returns the graph of a network.
    pub(crate) fn of(net: &Net) -> Graph
        ensures { result ≡ net.now }
    {
        let generals = net.generals();
        let mut neighbours = [0; GENERALS];
        for number in 0..MOST_GENERALS {
            neighbours[number as usize] = net.neighbours(GeneralNo::at(number)).bits();
        }
        Graph {
            net: Snapshot::of(net),
            generals,
            neighbours,
        }
    }

    /// Returns the number of generals, which is 2 to 16.
    pub(crate) fn generals(&self) -> u8
        ensures value { result ≡ self.now.generals }
        ensures network { IsNetwork self.now }
    {
        self.generals
    }

    /// Returns the set of the generals that an edge joins to this one.
    pub(crate) fn neighbours(&self, general: GeneralNo) -> GeneralSet
        ensures { IsListOf result (AreNeighbours self.now general) }
    {
        GeneralSet::from_bits(self.neighbours[usize::from(general.get())])
    }
}
