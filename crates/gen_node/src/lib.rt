//! One general of a run as a node, which the caller drives over a transport of its own.
//!
//! A node has its own key alone. The caller says when a round begins and ends, sends each neighbour the bytes of the
//! frame to it, and hands in the bytes that came from each neighbour. The node signs, relays, keeps its log and decides
//! as the algorithm of signed messages says (L. Lamport, R. Shostak and M. Pease, "The Byzantine Generals Problem", ACM
//! TOPLAS 4, 1982, section 4). If there is a scenario whose master seed gives the nodes' seeds, their run is the run of
//! that scenario (`laws`).
//!
//! What is promised: bytes that are not the awaited frame of a neighbour are refused and change nothing. A neighbour
//! from which nothing came in a round counts as one that sent nothing. No leaf of the ring is taken twice. What is not
//! promised: that frames come in time, or that they come from the neighbour that the transport names.
//!
//! A node of a system begins one run after another. Which one comes next, a `Timetable` tells by the clock: the least
//! number that is above the newest run that the node has begun, and whose run has not begun yet.
#![tactic(auto)]

mod bundles;
mod clock;
mod frame_fault;
mod frame_reading;
mod frame_writing;
mod frames;
mod held;
pub mod laws;
mod node_ends;
mod node_fault;
mod nodes;
mod stages;

pub use bundles::make_bundle;
pub use clock::{MOST_RUNS, NextRun, Timetable};
pub use frame_fault::FrameFault;
pub use frame_reading::{FRAME_MARK, read_frame, read_frame_head};
pub use frames::{FrameFront, FrameHead, WireFrame};
pub use node_ends::NodeEnd;
pub use node_fault::NodeFault;
pub use nodes::Node;
