//! Heads of frames, for a caller that keeps frames.
ghost use Rattle.sm_node.specs.Heads.{TellsHead};

use crate::faults::FRAME_FAULTS;
use crate::told::NodeReply;
use gen_node::read_frame_head;

/// What the head of a frame says.
#[repr(C)]
#[derive(Clone, Copy)]
pub struct SmFrameHead {
    /// The run id.
    pub run_id: [u8; 32],
    /// The round.
    pub round: u32,
    /// The number of the sender.
    pub sender: u32,
    /// The number of the receiver.
    pub receiver: u32,
    /// The number of parcels.
    pub parcel_count: u32,
}

/// Tells the head in front of the bytes, or the number of their fault.
pub(crate) fn tell_head(bytes: &[u8], head: &mut SmFrameHead, fault: &mut u32) -> NodeReply
    ensures { TellsHead bytes.now head.old head.new fault.new result }
{
    *fault = 0;
    match read_frame_head(bytes) {
        Ok(found) => {
            let run_id = found.front.run_id;
            *head = SmFrameHead {
                run_id,
                round: u32::from(found.front.round),
                sender: u32::from(found.front.from),
                receiver: u32::from(found.front.to),
                parcel_count: u32::from(found.parcel_count),
            };
            NodeReply::Done
        }
        Err(broken) => {
            *fault = FRAME_FAULTS + u32::from(broken.number());
            NodeReply::Fault
        }
    }
}
