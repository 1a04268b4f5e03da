//! An edge, and the two passes by which it is used.
ghost use Rattle.std.specs.Prelude.{◌≡◌, ◌≤◌, [], length, vec_capacity};
ghost use Rattle.crossbeam_queue.specs.Passes.{ruled_capacity, view};

use crate::frames::Frame;
use crate::rule::{PassView, Tie};
use crossbeam_queue::{Pass, RuledArrayQueue};
use crossbeam_utils::sync::EventCount;

/// A queue under the rule of an edge.
pub(crate) type Line = RuledArrayQueue<Frame, PassView, Tie>;

/// One direction between two generals: a queue without a lock, with room for a fixed number of frames, at
/// least one. One pass puts on it and one takes from it. It also has the memory for the frames that are left
/// in the end.
///
/// It may be dropped with frames on it; then nothing is said of them.
#[derive(Drop)]
pub struct Edge {
    pub(crate) line: Line,
    pub(crate) room: Vec<Frame>,
    pub(crate) moved: EventCount,
    ghost roomy: { (room.items ≡ []) × (ruled_capacity line ≤ vec_capacity room) },
}

/// The right to put on one edge, which no other value has. It keeps how many frames were put by it, at most
/// one for each round of the run, and whether the last word was put.
#[derive(Drop)]
pub struct PutPass {
    pub(crate) pass: Pass<Frame, PassView>,
    pub(crate) put: u8,
    pub(crate) gone: bool,
    ghost counted: { ((view pass).put ≡ put) × ((view pass).gone_put ≡ gone) },
    ghost within: { put ≤ length (view pass).frames },
}

/// The right to take from one edge, which no other value has. It keeps how many frames were taken by it, at
/// most one for each round of the run, and whether the last word was taken.
#[derive(Drop)]
pub struct TakePass {
    pub(crate) pass: Pass<Frame, PassView>,
    pub(crate) taken: u8,
    pub(crate) gone: bool,
    ghost counted: { ((view pass).taken ≡ taken) × ((view pass).gone_taken ≡ gone) },
    ghost within: { taken ≤ length (view pass).frames },
}

/// What was put on an edge and not taken.
#[derive(Drop)]
pub struct Left {
    /// The frames, in the order in which they were put, and behind them the word that no more comes, if it
    /// was put and not taken.
    pub frames: Vec<Frame>,
}
