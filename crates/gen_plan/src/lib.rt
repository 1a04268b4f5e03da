//! What is asked of a header before its run: whether each general has keys of its own, whether the network withstands the
//! faulty generals that the run is planned for, and how long its frames can be.
#![tactic(auto)]

mod graph;
pub mod laws;
mod longest;
mod parting;
mod plans;
mod roots;
mod search;
mod sizes;

pub use longest::frame_most;
pub use parting::parted_pair;
pub use plans::{PlanFailure, PlanResult, plan_of};
pub use roots::{equal_roots, first_equal_roots};
pub use sizes::{RunSizes, sizes_of};
