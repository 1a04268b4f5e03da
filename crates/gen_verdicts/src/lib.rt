//! Verdicts on campaigns as text: the verdict on each run, and the convictions across two runs.
//!
//! The verdict on one run has its text by `gen_report`. A campaign of several runs has these texts between a first and a last
//! line of its own, and a line for each conviction across two runs, which names the runs by their places.
#![tactic(auto)]

pub mod laws;
mod printing;

pub use printing::print_campaign;
