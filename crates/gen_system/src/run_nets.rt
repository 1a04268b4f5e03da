//! The networks of the runs of a system.
ghost use Rattle.std.specs.Prelude.{◌≡◌, IfOk};
ghost use Rattle.gen_system.specs.declared.proposers.Proposer.TheVariants.{Turns};
ghost use Rattle.gen_system.specs.RunNets.{IsNetOfRun, network_by, network_of_run, turned};

use crate::proposers::Proposer;
use crate::runs::general_in_turn;
use crate::systems::System;
use gen_net::Net;
use gen_types::ReadError;
use std::alloc::{AllocError, Global};

/// Returns the edges of a network as pairs of the generals of a run that the nodes are, where they propose in turns.
fn turned_edges(alloc: Global, net: &Net, run: u32) -> Result<Vec<(u8, u8)>, AllocError>
    ensures { IfOk result (λ edges. edges.items ≡ turned net.now.generals run net.now.edges) }
{
    let n = net.generals();
    let mut moved = Vec::new(alloc);
    'edges: for edge in net.edges() {
        let first = general_in_turn(n, run, edge.0.get());
        let second = general_in_turn(n, run, edge.1.get());
        moved.push((first, second))?;
    }
    Ok(moved)
}

/// Returns the network of the run with this number, where nodes propose in turns.
fn turned_net(alloc: Global, net: &Net, run: u32) -> Result<Net, AllocError>
    ensures { IfOk result (λ made. made ≡ network_by Turns net.now run) }
{
    let edges = turned_edges(alloc, net, run)?;
    let made = Net::new(
        alloc,
        net.generals(),
        &edges,
        net.traitors(),
        net.diameter(),
        net.orders(),
        net.choice().number(),
    );
    match made {
        Ok(made) => Ok(made),
        Err(ReadError::Memory) => Err(AllocError),
        Err(ReadError::Fault(_)) => unreachable!(),
    }
}

impl System {
    /// Returns the network of the run with this number: it has an edge between two generals if and only if the system
    /// has the edge between their nodes, and all else is the system's. Where the first node proposes, it is the
    /// system's own.
    ///
    /// # Errors
    ///
    /// `AllocError` if memory is refused.
    pub fn net_of(&self, alloc: Global, run: u32) -> Result<Net, AllocError>
        ensures value { IfOk result (λ net. net ≡ network_of_run self.now run) }
        ensures moved { IfOk result (IsNetOfRun self.now run) }
    {
        let net = self.header.net();
        match self.proposer {
            Proposer::First => net.clone(),
            Proposer::Turns => turned_net(alloc, net, run),
        }
    }
}
