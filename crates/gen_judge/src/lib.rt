//! Judges the logs of a run while the run goes on.
//!
//! The generals run in threads, and each files its logs at a desk once they are sealed. Workers beside them report on
//! what is filed. What is promised: the judgement is the one on the bundle that the run makes, in each case. What is
//! not promised: that threads run, that waiting ends, or that a report was made while other generals ran.
#![tactic(auto)]

mod beside;
mod desks;
mod filing;
mod judging;
mod places;
mod reports;
mod runs;
mod stopping;
mod trays;
mod working;

pub use runs::{run_and_audit, run_and_audit_bundle};
