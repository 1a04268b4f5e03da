//! Calls of frames, as nodes send them.
use crate::names::Refused;
use crate::rows::Row;
use crate::texts::Answer;
use gen_node::{FrameFault, FrameFront, WireFrame, read_frame};
use std::alloc::Global;

/// Answers a call of this module, and returns whether it is one.
pub(crate) fn tell(
    alloc: Global,
    call: &str,
    row: Row<'_>,
    answer: &mut Answer,
) -> Result<bool, Refused> {
    match call {
        "frame" => tell_frame(alloc, row, answer)?,
        _ => return Ok(false),
    }
    Ok(true)
}

/// Tells the parcels of the frame that is awaited, or the fault of bytes that are another one or none.
fn tell_frame(alloc: Global, mut row: Row<'_>, answer: &mut Answer) -> Result<(), Refused> {
    let run_id = row.hash()?;
    let round = row.byte()?;
    let (from, to) = (row.byte()?, row.byte()?);
    let awaited = FrameFront {
        run_id,
        round,
        from,
        to,
    };
    let bytes = row.rest()?;
    match read_frame(alloc, bytes) {
        Ok(frame) => tell_read(&frame, &awaited, answer),
        Err(fault) => answer.show(fault),
    }
    Ok(())
}

/// Tells the parcels of a frame that is read, or its fault.
fn tell_read(frame: &WireFrame, awaited: &FrameFront, answer: &mut Answer) {
    match front_fault(&frame.front(), awaited) {
        Some(fault) => answer.show(fault),
        None => tell_parcels(frame, answer),
    }
}

/// Returns the fault of a frame that is of another run or round, or goes between others.
fn front_fault(front: &FrameFront, awaited: &FrameFront) -> Option<FrameFault> {
    if front.run_id != awaited.run_id {
        return Some(FrameFault::OtherRun);
    }
    if front.round != awaited.round {
        return Some(FrameFault::OtherRound);
    }
    if (front.from, front.to) != (awaited.from, awaited.to) {
        return Some(FrameFault::OtherEnds);
    }
    None
}

/// Tells how many parcels a frame has, and the digits of each.
fn tell_parcels(frame: &WireFrame, answer: &mut Answer) {
    answer.show(frame.parcels().len());
    for parcel in frame.parcels() {
        answer.hex(parcel.bytes());
    }
}
