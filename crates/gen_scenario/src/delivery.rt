//! The place of a frame in a run.

use gen_types::GeneralNo;

/// The place of a frame in a run: its sender, its receiver, and its round, 1 to R.
#[derive(Clone, Copy, Debug, PartialEq, Eq)]
pub struct Delivery {
    /// The general that sends the frame.
    pub from: GeneralNo,
    /// The general that receives the frame.
    pub to: GeneralNo,
    /// The round of the frame.
    pub round: u8,
}
