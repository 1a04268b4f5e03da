//! Frames on queues.
ghost use Rattle.std.specs.Prelude.{◌≡◌};

use gen_script::Parcel;
use std::marker::Model;

/// A frame on a queue. A contract sees the bytes of its parcels.
#[derive(Drop)]
pub(crate) struct Frame {
    pub(crate) parcels: Vec<Parcel>,
}

impl Model for Frame {
    ghost use Rattle.std.specs.Prelude.{ℕ, List};

    ghost Value = { List (List ℕ) };

    ghost view = { λ f. f.parcels.items };
}

impl Frame {
    /// Returns the parcels of the frame.
    pub(crate) fn parcels(&self) -> &[Parcel]
        ensures { result.now ≡ self.now }
    {
        self.parcels.as_slice()
    }
}
