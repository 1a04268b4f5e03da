//! Lists of rows, and how a network is spelled.
use crate::names::{Refused, byte_of, numbered};
use crate::texts::Answer;
use gen_net::Net;
use gen_types::{GeneralNo, NumberSet, Path};
use std::alloc::Global;

/// Returns the set of the generals or orders with commas between them; `-` stands for none.
pub(crate) fn set_in<K>(said: &str) -> Option<NumberSet<K>> {
    let mut set = NumberSet::new();
    if said == "-" {
        return Some(set);
    }
    for digits in said.split(',') {
        set.insert(numbered(digits)?);
    }
    Some(set)
}

/// Returns the path of the generals with commas between them; `-` stands for none.
pub(crate) fn path_in(said: &str) -> Option<Path> {
    let mut path = Path::new();
    if said == "-" {
        return Some(path);
    }
    for digits in said.split(',') {
        if path.push(numbered(digits)?).is_err() {
            return None;
        }
    }
    Some(path)
}

/// Returns the generals with commas between them, in their order; `-` stands for none.
pub(crate) fn generals_in(alloc: Global, said: &str) -> Result<Vec<GeneralNo>, Refused> {
    let mut generals = Vec::new(alloc);
    if said == "-" {
        return Ok(generals);
    }
    for digits in said.split(',') {
        generals.push(numbered(digits).ok_or(Refused)?)?;
    }
    Ok(generals)
}

/// Returns the edges `A-B` with commas between them; `-` stands for none.
pub(crate) fn edges_in(alloc: Global, said: &str) -> Result<Vec<(u8, u8)>, Refused> {
    let mut edges = Vec::new(alloc);
    if said == "-" {
        return Ok(edges);
    }
    for edge in said.split(',') {
        edges.push(edge_in(edge).ok_or(Refused)?)?;
    }
    Ok(edges)
}

/// Returns the edge `A-B`.
fn edge_in(said: &str) -> Option<(u8, u8)> {
    let (a, b) = said.split_once('-')?;
    Some((byte_of(a)?, byte_of(b)?))
}

/// Tells the numbers of a network, its rounds and its edges, as it keeps them.
pub(crate) fn tell_net(net: &Net, answer: &mut Answer) {
    answer.field("generals", net.generals());
    answer.field("traitors", net.traitors());
    answer.field("diameter", net.diameter());
    answer.field("orders", net.orders());
    answer.field("choice", net.choice().number());
    answer.field("rounds", net.rounds());
    answer.word("edges");
    for (a, b) in net.edges() {
        answer.item(*a);
        answer.join("-");
        answer.item(*b);
    }
    answer.end_list();
}
