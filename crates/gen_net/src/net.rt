//! Networks.
ghost use Rattle.std.specs.Prelude.{IsTrue, ◌≡◌, ◌≤◌, ◌↔◌};
ghost use Rattle.gen_types.specs.Ascending.{IsListOf};
ghost use Rattle.gen_types.specs.Spelled.{IsRead};
ghost use Rattle.gen_net.specs.Network.{rounds, AreNeighbours, IsLoyal, IsNetwork};
ghost use Rattle.gen_net.specs.NetworkOf.{ranges_of, network_with, network_of, network_in_place};

use crate::edges::{has_fault, is_joined, stand_in_place};
use crate::fault::HeaderFault;
use crate::numbers::NetNumbers;
use gen_types::limits::{
    FEWEST_GENERALS, FEWEST_ORDERS, GREATEST_DIAMETER, LEAST_DIAMETER, MOST_GENERALS, MOST_ORDERS,
    MOST_ROUNDS, MOST_TRAITORS,
};
use gen_types::{ChoiceKind, GeneralNo, GeneralSet, ReadError};
use std::alloc::{AllocError, Global};
use std::marker::Model;

/// A network of generals together with the numbers of a run on it (section 5 of the paper of 1982).
///
/// There are n generals (2 to 16), with general 0 as the commander, and edges between them. A run is planned for m
/// traitors (0 to 8) and for the diameter d (1 to 15), with m + d at most 16. There are q orders (2 to 15) and one
/// choice. A contract sees all of these as one record.
#[derive(Debug, Drop)]
pub struct Net {
    generals: u8,
    edges: Vec<(GeneralNo, GeneralNo)>,
    traitors: u8,
    diameter: u8,
    orders: u8,
    choice: ChoiceKind,
}

impl Model for Net {
    ghost use Rattle.gen_net.specs.Network.{Network, IsNetwork};

    ghost Value = { Network };

    ghost view = { λ net. record {
      generals = net.generals;
      edges = net.edges.items;
      traitors = net.traitors;
      diameter = net.diameter;
      orders = net.orders;
      choice = net.choice;
    } };

    ghost invariant = { λ net. IsNetwork (record {
      generals = net.generals;
      edges = net.edges.items;
      traitors = net.traitors;
      diameter = net.diameter;
      orders = net.orders;
      choice = net.choice;
    }) };
}

/// Returns the choice of these numbers, if they are in their ranges and the edges are good; else the first rule of
/// `HeaderFault` that they break.
#[tactic(auto, unfolding(crate::specs::NetworkOf::ranges_of))]
fn ranges(numbers: NetNumbers, good_edges: bool) -> Result<ChoiceKind, ReadError<HeaderFault>>
    ensures { IsRead result (ranges_of numbers good_edges) }
{
    let NetNumbers {
        generals,
        traitors,
        diameter,
        orders,
        choice,
    } = numbers;
    if !(FEWEST_GENERALS <= generals && generals <= MOST_GENERALS) {
        return Err(ReadError::Fault(HeaderFault::GeneralCount));
    }
    if !good_edges {
        return Err(ReadError::Fault(HeaderFault::BadEdge));
    }
    if traitors > MOST_TRAITORS {
        return Err(ReadError::Fault(HeaderFault::TraitorCount));
    }
    if !(LEAST_DIAMETER <= diameter && diameter <= GREATEST_DIAMETER) {
        return Err(ReadError::Fault(HeaderFault::DiameterRange));
    }
    if traitors + diameter > MOST_ROUNDS {
        return Err(ReadError::Fault(HeaderFault::RoundCount));
    }
    if !(FEWEST_ORDERS <= orders && orders <= MOST_ORDERS) {
        return Err(ReadError::Fault(HeaderFault::OrderCount));
    }
    ChoiceKind::new(choice).ok_or(ReadError::Fault(HeaderFault::UnknownChoice))
}

impl Net {
    /// Returns the network of n generals with these edges, which come in any order and direction. It is planned for m
    /// traitors and the diameter d, with q orders and the choice of this number.
    ///
    /// # Errors
    ///
    /// The first rule of `HeaderFault` that they break; Memory if memory was refused before.
    #[tactic(auto, unfolding(crate::specs::NetworkOf::network_of))]
    pub fn new(
        alloc: Global,
        n: u8,
        edges: &[(u8, u8)],
        m: u8,
        d: u8,
        q: u8,
        choice: u8,
    ) -> Result<Net, ReadError<HeaderFault>>
        ensures { IsRead result
            (network_of (record {
              generals = n;
              traitors = m;
              diameter = d;
              orders = q;
              choice = choice;
            }) edges.now) }
    {
        let numbers = NetNumbers {
            generals: n,
            traitors: m,
            diameter: d,
            orders: q,
            choice,
        };
        let choice = ranges(numbers, !has_fault(n, edges))?;
        // Each edge once as (a, b) with a < b, ascending.
        let mut ascending = Vec::new(alloc);
        for a in 0..n {
            let first = GeneralNo::at(a);
            for b in a + 1..n {
                if is_joined(a, b, edges) {
                    ascending.push((first, GeneralNo::at(b)))?;
                }
            }
        }
        Ok(Net::of_parts(numbers, ascending, choice))
    }

    /// Returns the network of these numbers and edges, which have to stand in their places: each (a, b) with a < b,
    /// ascending. Otherwise it returns the first rule of `HeaderFault` that they break.
    #[tactic(auto, unfolding(crate::specs::NetworkOf::network_in_place))]
    pub(crate) fn in_place(
        alloc: Global,
        numbers: NetNumbers,
        edges: &[(u8, u8)],
    ) -> Result<Net, ReadError<HeaderFault>>
        ensures { IsRead result (network_in_place numbers edges.now) }
    {
        let choice = ranges(numbers, stand_in_place(numbers.generals, edges))?;
        let mut placed = Vec::with_capacity(alloc, edges.len())?;
        let mut rest = edges;
        while let [(a, b), others @ ..] = rest {
            placed.push((GeneralNo::at(*a), GeneralNo::at(*b)))?;
            rest = others;
        }
        Ok(Net::of_parts(numbers, placed, choice))
    }

    /// Returns the network of these parts, whose numbers must be in their ranges and whose edges must stand in their
    /// places.
    fn of_parts(numbers: NetNumbers, edges: Vec<(GeneralNo, GeneralNo)>, choice: ChoiceKind) -> Net
        requires { IsNetwork (network_with numbers edges.items choice) }
        ensures { result ≡ network_with numbers edges.items choice }
    {
        Net {
            generals: numbers.generals,
            edges,
            traitors: numbers.traitors,
            diameter: numbers.diameter,
            orders: numbers.orders,
            choice,
        }
    }

    /// Returns the number of generals, n, which is 2 to 16.
    pub fn generals(&self) -> u8
        ensures value { result ≡ self.now.generals }
        ensures network { IsNetwork self.now }
    {
        self.generals
    }

    /// Returns each edge once as (a, b) with a < b, in ascending order.
    pub fn edges(&self) -> &[(GeneralNo, GeneralNo)]
        ensures { result.now ≡ self.now.edges }
    {
        &self.edges
    }

    /// Returns the number of traitors that a run is planned for, m, which is 0 to 8.
    pub fn traitors(&self) -> u8
        ensures { result ≡ self.now.traitors }
    {
        self.traitors
    }

    /// Returns the diameter that a run is planned for, d, which is 1 to 15.
    pub fn diameter(&self) -> u8
        ensures { result ≡ self.now.diameter }
    {
        self.diameter
    }

    /// Returns the number of rounds, m + d, which is 1 to 16: a run is one of SM(m + d - 1), as in
    /// Theorem 4 in section 5 of the paper of 1982.
    pub fn rounds(&self) -> u8
        ensures value { result ≡ rounds self.now }
        ensures network { IsNetwork self.now }
    {
        self.traitors + self.diameter
    }

    /// Returns the number of orders, q, which is 2 to 15.
    pub fn orders(&self) -> u8
        ensures value { result ≡ self.now.orders }
        ensures network { IsNetwork self.now }
    {
        self.orders
    }

    /// Returns the choice by which lieutenants decide.
    pub fn choice(&self) -> ChoiceKind
        ensures { result ≡ self.now.choice }
    {
        self.choice
    }

    /// Returns whether an edge joins a and b, in either direction.
    pub fn has_edge(&self, a: GeneralNo, b: GeneralNo) -> bool
        ensures { IsTrue result ↔ AreNeighbours self.now a b }
    {
        self.edges.contains(&(a, b)) || self.edges.contains(&(b, a))
    }

    /// Returns the set of the generals that an edge joins to this one; it is empty for a general that is not the
    /// network's.
    pub fn neighbours(&self, general: GeneralNo) -> GeneralSet
        ensures { IsListOf result (AreNeighbours self.now general) }
    {
        let mut set = GeneralSet::new();
        for number in 0..self.generals {
            let other = GeneralNo::at(number);
            if self.has_edge(general, other) {
                set.insert(other);
            }
        }
        set
    }

    /// Returns the set of the network's generals that aren't among the faulty.
    pub fn rest(&self, faulty: &GeneralSet) -> GeneralSet
        ensures { IsListOf result (IsLoyal self.now faulty.now) }
    {
        let mut rest = GeneralSet::new();
        for number in 0..self.generals() {
            let general = GeneralNo::at(number);
            if !faulty.contains(general) {
                rest.insert(general);
            }
        }
        rest
    }
}

/// A copy is equal to its original. It fails only if memory was refused.
impl Clone for Net {
    ghost is_clone = { λ net copy. copy ≡ net };

    fn clone(&self) -> Result<Net, AllocError> {
        let edges = Vec::from_slice(*self.edges.allocator(), self.edges.as_slice())?;
        Ok(Net {
            generals: self.generals,
            edges,
            traitors: self.traitors,
            diameter: self.diameter,
            orders: self.orders,
            choice: self.choice,
        })
    }
}
