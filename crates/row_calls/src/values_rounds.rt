//! Calls of the algorithm: what generals add, send and decide. A chain is spelled `ORDER:PATH`.
ghost use Rattle.std.specs.Prelude.{◌≡◌};
ghost use Rattle.gen_net.specs.Network.{rounds};

use crate::names::{Refused, numbered};
use crate::rows::Row;
use crate::texts::Answer;
use crate::values_parts::path_in;
use gen_core::{Adds, Commander, Lieutenant, Outgoing, Seen, sends};
use gen_net::Net;
use gen_types::{OrderNo, OrderSet};
use std::alloc::Global;

/// Tells what a lieutenant adds and sends in each round for what arrives in it, and what is decided after the last.
pub(crate) fn play(
    alloc: Global,
    net: &Net,
    mut row: Row<'_>,
    answer: &mut Answer,
) -> Result<(), Refused> {
    let me = row.general()?;
    if me.get() == 0 || me.get() >= net.generals() {
        return Err(Refused);
    }
    let mut lieutenant = Lieutenant::new(net, me);
    'rounds: for _ in 0..net.rounds() {
        let Ok(arriving) = row.word() else { break };
        let adds = adds_for(alloc, net, &mut lieutenant, arriving)?;
        let out = sends(alloc, net, me, &adds)?;
        tell_adds(&adds, answer);
        tell_sends(out.as_slice(), answer);
        answer.end_line();
    }
    tell_end(net, &lieutenant, answer);
    Ok(())
}

/// Returns what a lieutenant adds in the next round, in which these chains arrive.
fn adds_for(
    alloc: Global,
    net: &Net,
    lieutenant: &mut Lieutenant,
    arriving: &str,
) -> Result<Adds, Refused>
    requires { lieutenant.old.rounds ≡ rounds net.now }
    ensures { lieutenant.new.rounds ≡ rounds net.now }
{
    if lieutenant.gone() >= net.rounds() {
        return Err(Refused);
    }
    let arrived = arrivals_in(alloc, arriving)?;
    Ok(lieutenant.round(arrived.as_slice()))
}

/// Tells the decision, or that there are more rounds.
fn tell_end(net: &Net, lieutenant: &Lieutenant, answer: &mut Answer)
    requires { lieutenant.now.rounds ≡ rounds net.now }
{
    if lieutenant.gone() != net.rounds() {
        return answer.word("goes on");
    }
    let (orders, order) = lieutenant.decide();
    tell_decision(&orders, order, answer);
}

/// Tells what the commander sends and decides.
pub(crate) fn command(
    alloc: Global,
    net: &Net,
    mut row: Row<'_>,
    answer: &mut Answer,
) -> Result<(), Refused> {
    let commander = Commander::new(row.order()?);
    let out = commander.sends(alloc, net)?;
    tell_sends(out.as_slice(), answer);
    answer.end_line();
    let (orders, order) = commander.decide();
    tell_decision(&orders, order, answer);
    Ok(())
}

/// Tells a set of orders and what is decided.
fn tell_decision(orders: &OrderSet, order: OrderNo, answer: &mut Answer) {
    answer.word("set");
    answer.set(orders);
    answer.field("decides", order);
}

/// Returns the chains with spaces between them.
fn arrivals_in(alloc: Global, said: &str) -> Result<Vec<Seen>, Refused> {
    let mut arrived = Vec::new(alloc);
    for chain in said.split_ascii_whitespace() {
        arrived.push(chain_in(chain).ok_or(Refused)?)?;
    }
    Ok(arrived)
}

/// Returns a chain that comes from the last general of its path.
fn chain_in(said: &str) -> Option<Seen> {
    let (digits, generals) = said.split_once(':')?;
    let order = numbered(digits)?;
    let path = path_in(generals)?;
    let from = path.last()?;
    Some(Seen { from, order, path })
}

/// Tells the chains of the orders that are added, ascending.
fn tell_adds(adds: &Adds, answer: &mut Answer) {
    answer.word("adds");
    let mut is_none = true;
    for number in 0..16u8 {
        if let Some(path) = adds.get(OrderNo::at(number)) {
            answer.show(number);
            answer.join(":");
            answer.generals(path.generals());
            is_none = false;
        }
    }
    if is_none {
        answer.word("-");
    }
}

/// Tells the chains that are sent, each behind its receiver.
fn tell_sends(out: &[Outgoing], answer: &mut Answer) {
    answer.word("sends");
    if out.is_empty() {
        answer.word("-");
    }
    for sent in out {
        answer.show(sent.to);
        answer.join(":");
        answer.show(sent.order);
        answer.join(":");
        answer.generals(sent.path.generals());
    }
}
