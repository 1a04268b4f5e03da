//! What the tests put on edges, the frames of a scenario's run one after the other, and what they see of it.
ghost use Rattle.std.specs.Prelude.{ℕ, ◌≡◌, ◌+◌, ◌==◌, ◌&&◌, false, option_map, IfOk, IfSome};
ghost use Rattle.std.specs.List.{find};
ghost use Rattle.gen_scenario.specs.Rows.{FrameRow, rows_of};
ghost use Rattle.gen_edge.specs.Frames.{carried, edge_frames, round};
ghost use Rattle.gen_edge.specs.Tied.{ComesNext};
ghost use Rattle.gen_edge.specs.Ends.{IsPutPassOf, IsTakePassOf, edge_capacity, put_view};

use gen_edge::{Edge, Frame, Left, PutPass, TakePass};
use gen_scenario::Scenario;
use gen_types::GeneralNo;
use gen_world::{FrameRow, WorldRun};
use std::alloc::{AllocError, Global};
use std::sync::Wait;

/// A frame of the run.
fn copy_of(alloc: Global, row: &FrameRow) -> Result<Frame, AllocError>
    ensures { IfOk result (λ frame. carried frame ≡ round row.now.round row.now.parcels) }
{
    Ok(Frame::Round {
        number: row.round(),
        parcels: row.parcels().to_vec(alloc)?,
    })
}

/// The frame of a round from one general to another, among those of a run.
fn row_of(rows: &[FrameRow], way: (GeneralNo, GeneralNo), round: u8) -> Option<&FrameRow>
    ensures { option_map (λ row. row.now) result ≡
        find (λ (row : FrameRow). row.from == way.0 && row.to == way.1 && row.round == round) rows.now }
{
    rows.iter().find(|row| row.from() == way.0 && row.to() == way.1 && row.round() == round)
}

/// The same, to be put on an edge.
pub(crate) fn frame_of(
    alloc: Global,
    scenario: &Scenario,
    run: &WorldRun,
    way: (GeneralNo, GeneralNo),
    round: u8,
) -> Result<Option<Frame>, AllocError>
    requires { run.now.frames ≡ rows_of scenario.now }
    ensures { IfOk result (λ found. IfSome found (λ frame. (n : ℕ) → round ≡ n + 1
        → ComesNext (edge_frames scenario.now way.0 way.1) n false (carried frame))) }
{
    match row_of(run.frames(), way, round) {
        Some(row) => Ok(Some(copy_of(alloc, row)?)),
        None => Ok(None),
    }
}

/// Tries to put the frame of the run that comes next on an edge. Whether it was put.
pub(crate) fn put_next<R: Wait>(
    rt: &R,
    alloc: Global,
    scenario: &Scenario,
    run: &WorldRun,
    way: (GeneralNo, GeneralNo),
    edge: &Edge,
    pass: &mut PutPass,
) -> Result<bool, AllocError>
    requires run { run.now.frames ≡ rows_of scenario.now }
    requires pass { IsPutPassOf edge.now pass.old }
    requires frames { (put_view pass.old).frames ≡ edge_frames scenario.now way.0 way.1 }
    ensures pass { IsPutPassOf edge.now pass.new }
    ensures frames { (put_view pass.new).frames ≡ edge_frames scenario.now way.0 way.1 }
{
    let put = pass.put();
    if pass.has_ended() || put >= 16 {
        return Ok(false);
    }
    match frame_of(alloc, scenario, run, way, put + 1)? {
        Some(frame) => Ok(edge.try_put(rt, pass, frame).is_ok()),
        None => Ok(false),
    }
}

/// The round of a frame, how many parcels it has, and how many bytes the longest; three times 0 of the last
/// word.
pub(crate) type Shape = (u8, usize, usize);

/// The shape of a frame.
fn shape(frame: &Frame) -> Shape {
    match frame {
        Frame::Round { number, parcels } => {
            let bytes = parcels.iter().map(|parcel| parcel.bytes().len());
            (*number, parcels.len(), bytes.max().unwrap_or(0))
        }
        Frame::Gone => (0, 0, 0),
    }
}

/// Tells both how far the other is, and puts the last word where an edge that holds so many frames has
/// room. No second try is needed. Whether it was put.
pub(crate) fn put_last_told<R: Wait>(
    rt: &R,
    edge: &Edge,
    capacity: usize,
    put: &mut PutPass,
    take: &mut TakePass,
) -> bool
    requires passes { IsPutPassOf edge.now put.old × IsTakePassOf edge.now take.old }
    requires capacity { capacity ≡ edge_capacity edge.now }
    ensures passes { IsPutPassOf edge.now put.new × IsTakePassOf edge.now take.new }
    ensures frames { (put_view put.new).frames ≡ (put_view put.old).frames }
{
    edge.tell(put, take);
    if put.has_ended() || u64::from(put.put()) >= u64::from(take.taken()) + capacity as u64 {
        return false;
    }
    edge.try_put(rt, put, Frame::Gone).unwrap();
    true
}

/// Tells the taker what was put, and takes what comes first where something was put and not taken.
/// No second try is needed.
pub(crate) fn take_told<R: Wait>(
    rt: &R,
    edge: &Edge,
    put: &mut PutPass,
    take: &mut TakePass,
) -> Option<Shape>
    requires { IsPutPassOf edge.now put.old × IsTakePassOf edge.now take.old }
    ensures passes { IsPutPassOf edge.now put.new × IsTakePassOf edge.now take.new }
    ensures frames { (put_view put.new).frames ≡ (put_view put.old).frames }
{
    edge.tell(put, take);
    if take.taken() < put.put() || put.has_ended() && !take.has_ended() {
        let frame = edge.try_take(rt, take).unwrap();
        return Some(shape(&frame));
    }
    None
}

/// Whether what is left has these shapes.
pub(crate) fn are_left(left: &Left, wanted: &[Shape]) -> bool {
    let frames = left.frames.as_slice();
    frames.len() == wanted.len()
        && frames
            .iter()
            .zip(wanted)
            .all(|(frame, wanted)| shape(frame) == *wanted)
}
