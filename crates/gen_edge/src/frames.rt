//! What goes over an edge.
ghost use Rattle.std.specs.Prelude.{◌≡◌};
ghost use Rattle.gen_edge.specs.Frames.{carried, number_of};

use gen_script::Parcel;

/// What one general puts on an edge to a neighbour, and the neighbour takes from it.
#[derive(Drop, Debug)]
pub enum Frame {
    /// The parcels of one round, and the round's number, 1 to R.
    Round {
        /// The number of the round.
        number: u8,
        /// The parcels, in order.
        parcels: Vec<Parcel>,
    },
    /// The word that no more comes.
    Gone,
}

impl Frame {
    /// Returns the round of the frame, or None for the last word.
    pub fn number(&self) -> Option<u8>
        ensures { result ≡ number_of (carried self.now) }
    {
        match self {
            Frame::Round { number, .. } => Some(*number),
            Frame::Gone => None,
        }
    }
}
