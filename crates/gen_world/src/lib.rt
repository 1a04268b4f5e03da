//! The runs of scenarios, driven round by round.
//!
//! `run_plain` runs a scenario without signatures. `decide_world` runs one with signatures and returns the
//! decisions of the generals without scripts; `run_world` returns its frames, decisions and logs. What a
//! scenario and its run are stands in `gen_scenario`, and what one general does in `gen_general`; their
//! public names are also found here.
#![tactic(auto)]

pub mod laws;
mod rows;
mod running;
mod world;
mod world_decisions;

pub use gen_general::{
    Finished, Participant, Planned, Recorder, count_frame, participant_of, recorder_of,
};
pub use gen_scenario::{
    Decision, Delivery, Heard, Part, PlainRun, PlainScenario, Scenario, SignedPlan, SignerTree,
};
pub use rows::{FrameRow, WorldRun};
pub use running::run_plain;
pub use world::run_world;
pub use world_decisions::decide_world;
