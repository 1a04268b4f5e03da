//! Scenarios and their runs.
//!
//! A scenario is a network and the commander's order; a scenario with signatures also has the seed of all
//! keys and the scripts of the traitors. Its run is made of functions: the chains of a frame that count, what
//! a general heard after a number of rounds, the frame that it sends, the messages, the decisions and the
//! logs. Laws state that these are a run of the algorithm in which every general without a script follows.
//! What a general does, step by step, stands in `gen_general`.
#![tactic(auto)]

mod delivery;
mod heard;
pub mod laws;
mod parts;
mod plan;
mod scenario;
mod signed;
mod signer_trees;

pub use delivery::Delivery;
pub use heard::Heard;
pub use parts::Part;
pub use plan::SignedPlan;
pub use scenario::{Decision, PlainRun, PlainScenario};
pub use signed::Scenario;
pub use signer_trees::SignerTree;
