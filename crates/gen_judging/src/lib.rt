//! The jobs that judge what a run left: audit, draw, accuse, evidence.
//!
//! Each takes the bytes of an input, and returns the output that answers it, or its first fault. Three have a form that
//! works in the caller's thread; `audit_in_place` tells what it found as rows of numbers too. The engine of a job reads
//! the input to its end, and writes the output.
#![tactic(auto)]

mod accusing;
mod auditing;
mod checking;
mod counting;
mod drawing;
mod facts;
mod holding;
mod in_place;
mod origins;
mod run_ids;

pub use accusing::{accuse, accuse_engine};
pub use auditing::{audit, audit_engine, judgement_output};
pub use checking::{evidence, evidence_engine};
pub use counting::{counted, has_few};
pub use drawing::{draw, draw_engine};
pub use in_place::{accuse_in_place, audit_in_place, draw_in_place};
pub use origins::origin_in;
