//! How the decided values of several runs become one value: by their median, by what most of them are, or by what all of
//! them are.
#![tactic(auto)]

mod combining;
mod counting;
pub mod laws;

pub use combining::{Combination, combined};
