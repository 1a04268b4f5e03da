//! How a general that can't go on ends its edges.
ghost use Rattle.std.specs.Prelude.{◌≡◌, ◌<◌, ◌+◌, Any, true};
ghost use Rattle.gen_edge.specs.Ends.{IsPutPassOf, IsTakePassOf};
ghost use Rattle.gen_net.specs.Network.{rounds};
ghost use Rattle.gen_threads.specs.Edges.{ArePassesIn};
ghost use Rattle.gen_threads.specs.Faults.{HasLastWord};
ghost use Rattle.gen_threads.specs.Turns.{AreOver, AreOverUntil, IsPutOver, IsTakeOver, index_of_next};

use crate::edges::Edges;
use crossbeam_utils::Backoff;
use gen_edge::{Edge, Frame, PutPass, TakePass};
use gen_net::Net;
use gen_types::GeneralNo;
use std::sync::Wait;

/// Tries once to put the last word on an edge, unless all frames or the last word were put already. Returns
/// whether nothing is left to put.
fn end_put<R: Wait>(rt: &R, edge: &Edge, rounds: u8, pass: &mut PutPass) -> bool
    requires { IsPutPassOf edge.now pass.old }
    ensures pass { IsPutPassOf edge.now pass.new }
    ensures over { result ≡ true → IsPutOver rounds pass.new }
{
    if pass.put() >= rounds || pass.has_ended() {
        return true;
    }
    edge.try_put(rt, pass, Frame::Gone).is_ok()
}

/// Tries once to take from an edge, unless all frames or the last word were taken already. Returns whether
/// nothing is left to take.
fn end_take<R: Wait>(rt: &R, edge: &Edge, rounds: u8, pass: &mut TakePass) -> bool
    requires { IsTakePassOf edge.now pass.old }
    ensures pass { IsTakePassOf edge.now pass.new }
    ensures kept { HasLastWord pass.old → HasLastWord pass.new }
    ensures over { result ≡ true → IsTakeOver rounds pass.new }
{
    if pass.taken() >= rounds || pass.has_ended() {
        return true;
    }
    let _frame = edge.try_take(rt, pass);
    pass.taken() >= rounds || pass.has_ended()
}

/// Tries once to end the edges between this general and another one, if they are neighbours. The passes are
/// those at the index, which then moves on by one. Returns whether nothing is left to do on them.
fn end_both<R: Wait>(
    rt: &R,
    edges: &Edges,
    me: GeneralNo,
    net: &Net,
    other: GeneralNo,
    index: &mut usize,
    puts: &mut Vec<PutPass>,
    takes: &mut Vec<TakePass>,
) -> bool
    requires other { other < net.now.generals }
    requires index { index.old ≡ index_of_next net.now me other }
    requires passes { ArePassesIn edges.now net.now me puts.old.items takes.old.items }
    ensures index { index.new ≡ index_of_next net.now me (other + 1) }
    ensures passes { ArePassesIn edges.now net.now me puts.new.items takes.new.items }
    ensures kept { Any HasLastWord takes.old.items → Any HasLastWord takes.new.items }
    ensures over { result ≡ true → AreOverUntil (rounds net.now) index.old puts.old.items takes.old.items
        → AreOverUntil (rounds net.now) index.new puts.new.items takes.new.items }
{
    if !net.has_edge(me, other) {
        return true;
    }
    let outward = edges.edge(me, other).unwrap();
    let put = end_put(rt, outward, net.rounds(), &mut puts[*index]);
    let inward = edges.edge(other, me).unwrap();
    let taken = end_take(rt, inward, net.rounds(), &mut takes[*index]);
    *index += 1;
    put & taken
}

/// Does one turn for a general that can't go on. It tries once to put the last word on each edge from the
/// general that hasn't had all frames or that word. It tries once to take from each edge to the general that
/// hasn't given all frames or the last word. It takes no memory. Returns whether nothing is left to do.
pub(crate) fn stop_once<R: Wait>(
    rt: &R,
    edges: &Edges,
    me: GeneralNo,
    net: &Net,
    puts: &mut Vec<PutPass>,
    takes: &mut Vec<TakePass>,
) -> bool
    requires { ArePassesIn edges.now net.now me puts.old.items takes.old.items }
    ensures passes { ArePassesIn edges.now net.now me puts.new.items takes.new.items }
    ensures kept { Any HasLastWord takes.old.items → Any HasLastWord takes.new.items }
    ensures over { result ≡ true → AreOver (rounds net.now) puts.new.items takes.new.items }
{
    let mut index = 0;
    let mut over = true;
    'near: for number in 0..net.generals() {
        let other = GeneralNo::at(number);
        let both = end_both(rt, edges, me, net, other, &mut index, puts, takes);
        over &= both;
    }
    over
}

/// Stops a general that can't go on: does its turns until nothing is left to do.
pub(crate) fn stop<R: Wait>(
    rt: &R,
    edges: &Edges,
    me: GeneralNo,
    net: &Net,
    puts: &mut Vec<PutPass>,
    takes: &mut Vec<TakePass>,
)
    requires { ArePassesIn edges.now net.now me puts.old.items takes.old.items }
    ensures passes { ArePassesIn edges.now net.now me puts.new.items takes.new.items }
    ensures kept { Any HasLastWord takes.old.items → Any HasLastWord takes.new.items }
    ensures over { AreOver (rounds net.now) puts.new.items takes.new.items }
{
    let backoff = Backoff::new();
    for _ in rt.forever() {
        if stop_once(rt, edges, me, net, puts, takes) {
            return;
        }
        backoff.snooze();
    }
    unreachable!()
}
