//! Generals in threads. Each thread has only what its general knows, and the edges to the neighbours. The
//! logs are those of the scenario's run, by the signed message algorithm (section 4 of L. Lamport, R. Shostak
//! and M. Pease, "The Byzantine Generals Problem", ACM TOPLAS 4, 1982).
#![tactic(auto)]

mod edges;
mod ends;
mod gates;
mod held_rings;
mod joining;
mod rounds;
mod run_parts;
mod running;
mod starting;
mod stopping;
mod together;
mod trees;
mod waiting;
mod works;

pub use edges::{Edges, Passes};
pub use ends::{GeneralEnd, RunFault};
pub use gates::Gate;
pub use held_rings::{HeldRing, open_rings};
pub use run_parts::RunPart;
pub use running::run_general;
pub use together::{run_threads, run_with_rings};
pub use trees::make_trees;
