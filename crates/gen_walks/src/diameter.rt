//! Walks that bound the diameter of a set of generals.
ghost use Rattle.std.specs.Prelude.{ℕ, List, IsTrue, ◌≡◌, ◌<◌, ◌↔◌};
ghost use Rattle.std.specs.Prelude.{OnOk, IfOk, IfErr};
ghost use Rattle.gen_net.specs.Walks.{HasDiameter};
ghost use Rattle.gen_walks.specs.Walks.{AreJoined, Leads, IsShortWalk};
ghost use Rattle.gen_walks.specs.Walks.{IsPair, IsRestOf, IsWithinDiameter};
ghost use Rattle.gen_walks.specs.Walks.{Bridges, BoundsDiameter, IsLeastBadPair};

use crate::fault::BadPair;
use crate::inside::{are_joined, is_inside};
use crate::lists::{Walk, Walks};
use gen_net::Net;
use gen_types::{GeneralNo, GeneralSet};
use std::marker::Model;
use std::snapshot::Snapshot;

/// Shows that any two generals of a set, the rest, are joined inside it by at most d edges.
///
/// Only `check_walks` makes one. It holds no bytes.
#[derive(Drop)]
pub struct DiameterProof {
    net: Snapshot<Net>,
    rest: Snapshot<GeneralSet>,
}

impl Model for DiameterProof {
    ghost use Rattle.gen_walks.specs.Walks.{DiameterProof, IsWithinDiameter};

    ghost Value = { DiameterProof };

    ghost view = { λ proof. record {
      network = proof.net.value;
      rest = proof.rest.value;
    } };

    ghost invariant = { λ proof. IsWithinDiameter proof.net.value proof.rest.value };
}

impl DiameterProof {
    /// States what the proof shows: each pair of the set has a walk of at most d edges inside the set. So
    /// if the set is the rest of some faulty generals, the graph of the rest has a diameter of at most d.
    /// The call does nothing.
    pub fn bounds(&self)
        ensures walks { IsWithinDiameter self.now.network self.now.rest }
        ensures diameter { (faulty : List ℕ) →
            IsRestOf self.now.network faulty self.now.rest →
            HasDiameter self.now.network faulty }
    {
        // The fact is the type's invariant. This read of a field makes it known to the proof.
        let _ = &self.net;
    }
}

/// Returns whether `generals` lead from `from` to `to` along edges inside the set.
fn leads(
    net: &Net,
    rest: &GeneralSet,
    from: GeneralNo,
    generals: &[GeneralNo],
    to: GeneralNo,
) -> bool
    ensures { IsTrue result ↔ Leads (AreJoined net.now rest.now) from generals.now to }
{
    let mut at = from;
    let mut more = generals;
    while let [next, others @ ..] = more {
        if !are_joined(net, rest, at, *next) {
            return false;
        }
        at = *next;
        more = others;
    }
    at == to
}

/// Returns whether the list is a walk from a to b inside the set, of at most d edges.
fn is_short_walk(net: &Net, rest: &GeneralSet, a: GeneralNo, b: GeneralNo, walk: &Walk) -> bool
    ensures { IsTrue result ↔ IsShortWalk net.now rest.now a b walk.now }
{
    let generals = walk.generals();
    match generals {
        [] => false,
        [first, more @ ..] => {
            *first == a
                && is_inside(net, rest, a)
                && leads(net, rest, a, more, b)
                && generals.len() <= usize::from(net.diameter()) + 1
        }
    }
}

/// Returns whether one of the walks leads from a to b inside the set, by at most d edges.
fn is_bridged(net: &Net, rest: &GeneralSet, walks: &Walks, a: GeneralNo, b: GeneralNo) -> bool
    ensures { IsTrue result ↔ Bridges net.now rest.now walks.now a b }
{
    walks
        .as_slice()
        .iter()
        .any(|walk| is_short_walk(net, rest, a, b, walk))
}

/// Returns whether a and b are a pair of the set: both are inside it, and a < b.
pub(crate) fn is_pair(net: &Net, rest: &GeneralSet, a: GeneralNo, b: GeneralNo) -> bool
    ensures { IsTrue result ↔ IsPair net.now rest.now a b }
{
    a < b && is_inside(net, rest, a) && is_inside(net, rest, b)
}

/// Returns a proof if the walks bound the diameter of a set, the rest, by d. For each pair of the set one
/// walk must begin with the lesser general and end with the greater, stay inside the set, and step along
/// at most d edges.
///
/// Other walks may stand among them, in any order. Members of the set that are not generals of the network
/// count as absent. The call takes no memory.
///
/// # Errors
///
/// The least pair for which none of the walks does so.
pub fn check_walks(net: &Net, rest: &GeneralSet, walks: &Walks) -> Result<DiameterProof, BadPair>
    ensures ok { OnOk result (BoundsDiameter net.now rest.now walks.now) }
    ensures proof { IfOk result (λ proof. (proof.network ≡ net.now) × (proof.rest ≡ rest.now)) }
    ensures err { let bridges = Bridges net.now rest.now walks.now in
        IfErr result (λ bad. IsLeastBadPair net.now rest.now bridges bad.a bad.b) }
{
    for number in 0..net.generals() {
        let a = GeneralNo::at(number);
        for other in 0..net.generals() {
            let b = GeneralNo::at(other);
            if is_pair(net, rest, a, b) && !is_bridged(net, rest, walks, a, b) {
                return Err(BadPair { a, b });
            }
        }
    }
    Ok(DiameterProof {
        net: Snapshot::of(net),
        rest: Snapshot::of(rest),
    })
}
