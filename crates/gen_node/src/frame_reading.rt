//! Reads frames from bytes.
ghost use Rattle.std.specs.Prelude.{◌≡◌, Err, IfOk, Ok};
ghost use Rattle.gen_types.specs.declared.reading.ReadError.TheVariants.{Memory};
ghost use Rattle.gen_types.specs.Bytes.{many_at};
ghost use Rattle.gen_types.specs.Reading.{Gives};
ghost use Rattle.gen_types.specs.Spelled.{IsField, IsRead, Spells, StandsInFront};
ghost use Rattle.gen_node.specs.Frame.{WireFrame as Sent, IsFrame, IsHead, frame_spelling, head_of, head_spelling};
ghost use Rattle.gen_node.specs.FrameReading.{frame_at, head_at, head_in, parcel_at, whole_frame};

use crate::frame_fault::FrameFault;
use crate::frames::{FrameFront, FrameHead, WireFrame};
use gen_script::Parcel;
use gen_types::{ReadError, bytes_at, check, u8_at, u16_at, u32_at};
use std::alloc::Global;

/// The first four bytes of a frame: `SMF1` as a big-endian number.
pub const FRAME_MARK: u32 = 0x534d_4631;

/// The number of bytes of a run id.
const RUN_ID_BYTES: usize = 32;

/// Reads the head in front of the bytes, and returns it and the bytes after it.
#[tactic(auto, unfolding(crate::specs::FrameReading::head_at, crate::specs::FrameReading::front_at, crate::specs::FrameReading::run_at))]
fn head_in_front(bytes: &[u8]) -> Result<(FrameHead, &[u8]), ReadError<FrameFault>>
    ensures exact { IsField result (head_at bytes.now) }
    ensures memory { result ≡ Err Memory → ⊥ }
{
    let (mark, rest) = u32_at(bytes, FrameFault::Truncated)?;
    check(mark == FRAME_MARK, FrameFault::UnknownMark)?;
    let (run, rest) = bytes_at(rest, RUN_ID_BYTES, FrameFault::Truncated)?;
    let mut run_id = [0; RUN_ID_BYTES];
    run_id.copy_from_slice(run);
    let (round, rest) = u8_at(rest, FrameFault::Truncated)?;
    let (from, rest) = u8_at(rest, FrameFault::Truncated)?;
    let (to, rest) = u8_at(rest, FrameFault::Truncated)?;
    let (parcel_count, rest) = u16_at(rest, FrameFault::Truncated)?;
    let front = FrameFront {
        run_id,
        round,
        from,
        to,
    };
    let head = FrameHead {
        front,
        parcel_count,
    };
    Ok((head, rest))
}

/// Returns the head in front of the bytes: the mark `SMF1`, the run id (32 bytes), the round, the sender and the
/// receiver (a byte each), and the number of parcels (two bytes, big-endian). What follows isn't looked at.
///
/// # Errors
///
/// Truncated or UnknownMark, the first from left to right. No memory is asked for.
pub fn read_frame_head(bytes: &[u8]) -> Result<FrameHead, FrameFault>
    // If a head is read, its spelling begins the bytes.
    ensures found { IfOk result (StandsInFront IsHead head_spelling bytes.now) }
    // If the spelling of a head begins the bytes, that head is read.
    ensures only { (h : FrameHead) → StandsInFront IsHead head_spelling bytes.now h → result ≡ Ok h }
    // Of bytes that are a frame, its head is read.
    ensures frame { (f : Sent) → Spells IsFrame frame_spelling bytes.now f → result ≡ Ok (head_of f) }
    // The answer, and so the fault, is that of `head_in`.
    ensures exact { result ≡ head_in bytes.now }
{
    match head_in_front(bytes) {
        Ok((head, _)) => Ok(head),
        Err(ReadError::Fault(fault)) => Err(fault),
        Err(ReadError::Memory) => unreachable!(),
    }
}

/// Reads this many parcels, each behind its length in four bytes, and returns them and the bytes after them. The count
/// comes from the input, so no room is made for it beforehand.
fn read_parcels(
    alloc: Global,
    count: u16,
    bytes: &[u8],
) -> Result<(Vec<Parcel>, &[u8]), ReadError<FrameFault>>
    ensures { Gives (λ x. (x.0.items, x.1.now)) result (many_at parcel_at count bytes.now) }
{
    let mut parcels = Vec::new(alloc);
    let mut rest = bytes;
    for _ in 0..count {
        let (size, after) = u32_at(rest, FrameFault::Truncated)?;
        let (parcel, after) = bytes_at(after, size as usize, FrameFault::Truncated)?;
        parcels.push(Parcel::new(Vec::from_slice(alloc, parcel)?))?;
        rest = after;
    }
    Ok((parcels, rest))
}

/// Returns the frame that all the bytes are: the head and the parcels. Nothing may be left over.
#[tactic(auto, unfolding(crate::specs::FrameReading::frame_at, crate::specs::FrameReading::whole_frame))]
fn frame_alone(alloc: Global, bytes: &[u8]) -> Result<WireFrame, ReadError<FrameFault>>
    ensures { IsRead result (whole_frame bytes.now) }
{
    let (head, rest) = head_in_front(bytes)?;
    let (parcels, rest) = read_parcels(alloc, head.parcel_count, rest)?;
    check(rest.len() == 0, FrameFault::LeftOver)?;
    let front = head.front;
    Ok(WireFrame { front, parcels })
}

/// Returns the frame that all the bytes are. The bytes are the head and, for each parcel, its length (four bytes,
/// big-endian) and its bytes. The parcels' content isn't looked at.
///
/// # Errors
///
/// Truncated, UnknownMark or LeftOver, the first from left to right; Memory if memory was refused before.
pub fn read_frame(alloc: Global, bytes: &[u8]) -> Result<WireFrame, ReadError<FrameFault>>
    // If a frame is read, it has a spelling, and the bytes are its spelling.
    ensures found { IfOk result (Spells IsFrame frame_spelling bytes.now) }
    // If the bytes are the spelling of a frame, that frame is read, unless memory runs out.
    ensures only { (f : Sent) → Spells IsFrame frame_spelling bytes.now f → IsRead result (Ok f) }
    // The answer, and so the fault, is that of `whole_frame`.
    ensures exact { IsRead result (whole_frame bytes.now) }
{
    frame_alone(alloc, bytes)
}
