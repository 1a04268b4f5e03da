//! Directed edges between generals: bounded queues of frames, each with a pass to put and a pass to take.
//!
//! What one neighbour puts, the other takes, in the same order and nothing else. In contracts each frame is
//! that of the run. So threads that share nothing but edges make the run of their scenario (section 4 of L.
//! Lamport, R. Shostak and M. Pease, "The Byzantine Generals Problem", ACM TOPLAS 4, 1982).
#![tactic(auto)]

mod edges;
mod frames;
mod passes;
mod progress;
mod rule;

pub use frames::Frame;
pub use passes::{Edge, Left, PutPass, TakePass};
