//! What one general does in a run, and the log that it keeps of the run.
//!
//! A participant is the state of a general in a run: what it knows of its own, its ring, and what it heard. A
//! recorder is a participant that also writes its log. Their contracts speak of what the general knows and
//! heard, not of a scenario. Laws say that a participant that is driven as a scenario says is that scenario's
//! general. The order in which generals act is left to the code that drives them: rounds, a machine of
//! interleavings, or threads.
#![tactic(auto)]

mod counting;
mod deciding;
mod driving;
mod followers;
mod following;
mod hearing;
mod journal;
mod journal_entries;
pub mod laws;
mod participants;
mod recording;
mod recording_ends;
mod roles;
mod scripted;
mod signers;
mod signing;
mod traitors;

pub use counting::count_frame;
pub use driving::{participant_of, recorder_of};
pub use participants::Participant;
pub use recording::{Finished, Recorder};
pub use scripted::Planned;
