//! A general whose neighbours end after the first round, by public calls alone.
ghost use Rattle.std.specs.Prelude.{false, All, IfOk, IfSome, OnOk};
ghost use Rattle.std.specs.Vec.Iter.{into_iter_items};
ghost use Rattle.gen_edge.specs.Ends.{IsPutPassOf, put_view};
ghost use Rattle.gen_edge.specs.Frames.{carried, edge_frames};
ghost use Rattle.gen_edge.specs.Tied.{ComesNext};
ghost use Rattle.gen_threads.specs.Edges.{HasNewPasses};
ghost use Rattle.library_tests.specs.Seats.{MayTakeSeat};

use crate::edge_frames::frame_of;
use crate::gates::Open;
use crate::own_threads::{Seat, run_seat, seats_of};
use crate::scenarios::{LINE, stage_of};
use gen_edge::{Edge, Frame, PutPass};
use gen_scenario::Scenario;
use gen_threads::{Edges, GeneralEnd, Passes, RunFault};
use gen_types::GeneralNo;
use gen_world::run_world;
use std::alloc::Global;
use std::sync::Wait;
use std::test::*;
use std::vec::IntoIter;

/// The frame of round 1 from one general to another, to be put on an edge.
fn first_frame(
    alloc: Global,
    scenario: &Scenario,
    from: GeneralNo,
    to: GeneralNo,
) -> Result<Option<Frame>, Fail>
    ensures { IfOk result (λ found. IfSome found
        (λ frame. ComesNext (edge_frames scenario.now from to) 0 false (carried frame))) }
{
    let run = run_world(alloc, scenario)?;
    let frame = frame_of(alloc, scenario, &run, (from, to), 1)?;
    Ok(frame)
}

/// Puts a frame on an edge, and then the word that no more comes. Whether both were put.
fn put_both<R: Wait>(rt: &R, edge: &Edge, pass: &mut PutPass, frame: Frame) -> bool
    requires pass { IsPutPassOf edge.now pass.old }
    requires next { let v = put_view pass.old in
        ComesNext v.frames v.put v.gone_put (carried frame) }
{
    let put = edge.try_put(rt, pass, frame).is_ok();
    put && !pass.has_ended() && edge.try_put(rt, pass, Frame::Gone).is_ok()
}

/// Puts the frame of round 1 to general 1, if this is the general's least neighbour, and then the
/// word that no more comes. Whether both were put.
fn end_early<R: Wait>(
    rt: &R,
    alloc: Global,
    scenario: &Scenario,
    edges: &Edges,
    from: GeneralNo,
    passes: Passes,
) -> Result<bool, Fail>
    requires { HasNewPasses edges.now scenario.now from passes }
{
    let net = scenario.header().net();
    let _few = net.generals();
    let to = GeneralNo::at(1);
    if !net.has_edge(from, to) || net.has_edge(from, GeneralNo::at(0)) {
        return Ok(false);
    }
    let Some(edge) = edges.edge(from, to) else {
        return Ok(false);
    };
    let Some(frame) = first_frame(alloc, scenario, from, to)? else {
        return Ok(false);
    };
    let Passes { mut puts, takes: _ } = passes;
    Ok(put_both(rt, edge, &mut puts[0], frame))
}

/// The next general ends after round 1, as `end_early` says.
fn end_next<R: Wait>(
    rt: &R,
    alloc: Global,
    scenario: &Scenario,
    edges: &Edges,
    rest: &mut IntoIter<Seat>,
) -> Result<(), Fail>
    requires { All (λ seat. MayTakeSeat edges.now scenario.now seat.me seat.passes)
        (into_iter_items rest.old) }
    ensures { OnOk result (All (λ seat. MayTakeSeat edges.now scenario.now seat.me seat.passes)
        (into_iter_items rest.new)) }
{
    let Some(seat) = rest.next() else {
        return Err("nobody".into());
    };
    let Seat { me, passes } = seat;
    if !end_early(rt, alloc, scenario, edges, me, passes)? {
        return Err("not put".into());
    }
    Ok(())
}

/// How general 1 ends whose neighbours, generals 0 and 2, end after round 1.
fn end_between<R: Wait>(rt: &R, alloc: Global, scenario: &Scenario) -> Result<GeneralEnd, Fail> {
    let (edges, all) = Edges::new(alloc, scenario, 4)?;
    let mut rest = seats_of(alloc, scenario, &edges, all)?.into_iter();
    end_next(rt, alloc, scenario, &edges, &mut rest)?;
    let Some(seat) = rest.next() else {
        return Err("one alone".into());
    };
    end_next(rt, alloc, scenario, &edges, &mut rest)?;
    Ok(run_seat(rt, alloc, &Open, scenario, &edges, seat)?)
}

/// Two rounds' frames and then the last word are put, and one round's frame and then the last word are taken.
#[test]
fn neighbours_who_end_after_a_round(rt: HostRuntime) -> Result<(), Fail> {
    let alloc = rt.alloc();
    let stage = stage_of(alloc, LINE)?;
    let scenario = &stage.scenario;
    let end = end_between(&rt, alloc, scenario)?;
    assert!(rt; matches!(&end.logs, Err(RunFault::Gone)) && end.ring.is_some());
    assert!(rt;
        end.puts.len() == 2
            && end
                .puts
                .iter()
                .all(|pass| pass.put() == 2 && pass.has_ended())
    );
    assert!(rt;
        end.takes.len() == 2
            && end
                .takes
                .iter()
                .all(|pass| pass.taken() == 1 && pass.has_ended())
    );
    Ok(())
}
