//! An edge in one hand, whose two passes are told how far the other is. The frames are those of a triangle in
//! which everybody relays: on the edge from 1 to 2 comes nothing in round 1, and in round 2 the order that 1
//! got from the commander, in a chain of two signers. Such a chain has 2 bytes and 16,513 for each signer.
use crate::edge_frames::Shape;
use crate::edge_lanes::Lane;
use crate::scenarios::{TRIANGLE, scenario_of};
use gen_types::GeneralNo;
use std::alloc::Global;
use std::sync::Wait;
use std::test::Fail;

/// What comes in round 1.
const NOTHING: Shape = (1, 0, 0);

/// What comes in round 2.
const RELAYED: Shape = (2, 1, 33_028);

/// The last word.
const LAST: Shape = (0, 0, 0);

/// The edge from 1 to 2 of the triangle, with two rounds, which holds one frame.
fn lane_of(alloc: Global) -> Result<Lane, Fail> {
    let triangle = scenario_of(alloc, TRIANGLE)?;
    let way = (GeneralNo::at(1), GeneralNo::at(2));
    Ok(Lane::new(alloc, triangle, way, 1)?)
}

/// Whether each frame is put and taken at the first try, and the last word is put once there is room, and
/// left.
fn is_as_told<R: Wait>(rt: &R, alloc: Global, mut lane: Lane) -> Result<bool, Fail> {
    let is_empty = lane.take_told(rt).is_none();
    let is_put = lane.put_next(rt, alloc)?;
    let first = lane.take_told(rt);
    let is_put_too = lane.put_next(rt, alloc)?;
    let is_full = !lane.put_last_told(rt);
    let second = lane.take_told(rt);
    let is_ended = lane.put_last_told(rt);
    let are_put = is_put && is_put_too && is_ended;
    let are_taken = first == Some(NOTHING) && second == Some(RELAYED);
    Ok(lane.leaves(rt, &[LAST]) && is_empty && is_full && are_put && are_taken)
}

#[test]
fn no_second_try_is_needed_where_all_is_told(rt: HostRuntime) -> Result<(), Fail> {
    let lane = lane_of(rt.alloc())?;
    assert!(rt; is_as_told(&rt, rt.alloc(), lane)?);
    Ok(())
}
