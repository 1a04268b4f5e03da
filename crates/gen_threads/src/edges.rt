//! All edges of a run.
ghost use Rattle.std.specs.Prelude.{◌≡◌, ◌<◌, ◌+◌, IfOk, OnOk, length, option_map};
ghost use Rattle.gen_threads.specs.Building.{AreEmpty, AreMade, HasMorePuts, HasMoreTakes};
ghost use Rattle.gen_threads.specs.Edges.{AllHavePasses, edge_at};

use gen_edge::{Edge, PutPass, TakePass};
use gen_scenario::Scenario;
use gen_types::GeneralNo;
use std::alloc::{AllocError, Global};

/// All directed edges of a network, which are found by their ends.
#[derive(Drop)]
pub struct Edges {
    pub(crate) generals: u8,
    pub(crate) table: Vec<Option<Edge>>,
}

/// The passes of one general, in ascending order of its neighbours.
#[derive(Drop)]
pub struct Passes {
    /// The passes by which the general puts.
    pub puts: Vec<PutPass>,
    /// The passes by which the general takes.
    pub takes: Vec<TakePass>,
}

/// Gives a general one more pass to put by.
fn add_put(all: &mut Vec<Passes>, general: GeneralNo, put: PutPass) -> Result<(), AllocError>
    requires { general < length all.old.items }
    ensures { OnOk result (HasMorePuts general put all.old.items all.new.items) }
{
    all[usize::from(general.get())].puts.push(put)?;
    Ok(())
}

/// Gives a general one more pass to take by.
fn add_take(all: &mut Vec<Passes>, general: GeneralNo, take: TakePass) -> Result<(), AllocError>
    requires { general < length all.old.items }
    ensures { OnOk result (HasMoreTakes general take all.old.items all.new.items) }
{
    all[usize::from(general.get())].takes.push(take)?;
    Ok(())
}

/// Makes the edge from one general to another, if they are neighbours, and gives both their passes.
fn add_edge(
    alloc: Global,
    scenario: &Scenario,
    capacity: usize,
    from: GeneralNo,
    to: GeneralNo,
    edges: &mut Edges,
    all: &mut Vec<Passes>,
) -> Result<(), AllocError>
    requires capacity { 0 < capacity }
    requires from { from < scenario.now.net.generals }
    requires to { to < scenario.now.net.generals }
    requires made { AreMade scenario.now from to edges.old all.old.items }
    ensures { OnOk result (AreMade scenario.now from (to + 1) edges.new all.new.items) }
{
    if !scenario.header().net().has_edge(from, to) {
        edges.table.push(None)?;
        return Ok(());
    }
    let (edge, put, take) = Edge::new(alloc, scenario, from, to, capacity)?;
    edges.table.push(Some(edge))?;
    add_put(all, from, put)?;
    add_take(all, to, take)?;
    Ok(())
}

/// Makes all edges from a general to its neighbours, and gives each general its passes.
fn add_edges_from(
    alloc: Global,
    scenario: &Scenario,
    capacity: usize,
    from: GeneralNo,
    edges: &mut Edges,
    all: &mut Vec<Passes>,
) -> Result<(), AllocError>
    requires capacity { 0 < capacity }
    requires from { from < scenario.now.net.generals }
    requires made { AreMade scenario.now from 0 edges.old all.old.items }
    ensures { OnOk result (AreMade scenario.now (from + 1) 0 edges.new all.new.items) }
{
    'receivers: for number in 0..scenario.header().net().generals() {
        let to = GeneralNo::at(number);
        add_edge(alloc, scenario, capacity, from, to, edges, all)?;
    }
    Ok(())
}

impl Edges {
    /// Makes all edges of a scenario's network, each with room for this many frames, which must be at least
    /// one. Nothing is put yet. The passes of each general are returned too, in ascending order of generals.
    ///
    /// # Errors
    ///
    /// `AllocError` if memory is refused.
    pub fn new(
        alloc: Global,
        scenario: &Scenario,
        capacity: usize,
    ) -> Result<(Edges, Vec<Passes>), AllocError>
        requires { 0 < capacity }
        ensures { IfOk result (λ r. AllHavePasses r.0 scenario.now r.1.items) }
    {
        let generals = scenario.header().net().generals();
        let mut all = Vec::with_capacity(alloc, usize::from(generals))?;
        'generals: for _number in 0..generals {
            all.push(Passes {
                puts: Vec::new(alloc),
                takes: Vec::new(alloc),
            })?;
        }
        let mut edges = Edges {
            generals,
            table: Vec::new(alloc),
        };
        'senders: for number in 0..generals {
            let from = GeneralNo::at(number);
            add_edges_from(alloc, scenario, capacity, from, &mut edges, &mut all)?;
        }
        Ok((edges, all))
    }

    /// Returns the edge from one general to another, if they are neighbours.
    pub fn edge(&self, from: GeneralNo, to: GeneralNo) -> Option<&Edge>
        ensures { option_map (λ edge. edge.now) result ≡ edge_at self.now from to }
    {
        if to.get() >= self.generals {
            return None;
        }
        let cell = usize::from(from.get()) * usize::from(self.generals) + usize::from(to.get());
        match self.table.get(cell) {
            Some(Some(edge)) => Some(edge),
            _ => None,
        }
    }
}
