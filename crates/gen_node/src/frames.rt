//! Frames, and what tells one from another.
ghost use Rattle.std.specs.Prelude.{◌≡◌};

use gen_script::Parcel;
use std::marker::Model;

/// What tells a frame from others: its run, its round, its sender and its receiver.
#[derive(Clone, Copy, Debug, PartialEq, Eq)]
pub struct FrameFront {
    /// The run id, the hash of the run's header.
    pub run_id: [u8; 32],
    /// The round, from 1 on.
    pub round: u8,
    /// The general that sends the frame.
    pub from: u8,
    /// The neighbour that receives it.
    pub to: u8,
}

/// The head of a frame, which is all of it but the parcels.
#[derive(Clone, Copy, Debug, PartialEq, Eq)]
pub struct FrameHead {
    /// The front of the frame.
    pub front: FrameFront,
    /// How many parcels follow.
    pub parcel_count: u16,
}

/// What one general sends a neighbour in one round: parcels of bytes, perhaps none. A contract sees the front of the
/// frame and the list of parcels.
#[derive(Debug, Drop)]
pub struct WireFrame {
    pub(crate) front: FrameFront,
    pub(crate) parcels: Vec<Parcel>,
}

impl Model for WireFrame {
    ghost use Rattle.gen_node.specs.Frame.{WireFrame};

    ghost Value = { WireFrame };

    ghost view = { λ f. record { front = f.front; parcels = f.parcels.items } };
}

impl WireFrame {
    /// Returns the front of the frame: its run, its round, its sender and its receiver.
    pub fn front(&self) -> FrameFront
        ensures { result ≡ self.now.front }
    {
        self.front
    }

    /// Returns the parcels, in their order.
    pub fn parcels(&self) -> &[Parcel]
        ensures { result.now ≡ self.now.parcels }
    {
        self.parcels.as_slice()
    }
}
