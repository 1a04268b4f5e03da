//! Systems, and what admits their runs. A system is what all runs of some nodes have in common: the network, an identity
//! of each node, who proposes, and a context that the users choose. Its id is a hash of 32 bytes, which is pinned once.
//!
//! A run has a number below the number of the system's runs. An admission has, for one set of keys, the root of each node
//! with its opening: with it the header of each run of the set is known, and that it is the system's.
//!
//! What is promised: systems and admissions have one spelling each; an admission holds if and only if each opening opens
//! its node's identity at the set to its root; and two admissions of one id that admit two headers for one run give two
//! texts with one SHA-256, which `collide_headers` finds. So a system id and a number name one header.
//!
//! What is not promised: that nobody can find such texts, or that a node uses no set twice.
#![tactic(auto)]

mod admission_fault;
mod admission_reading;
mod admission_writing;
mod admissions;
mod admitting;
mod colliding;
pub mod laws;
mod opened_roots;
mod proposers;
mod run_nets;
mod runs;
mod system_fault;
mod system_reading;
mod system_writing;
mod systems;

pub use admission_fault::AdmissionFault;
pub use admission_reading::{admission_alone, read_admission};
pub use admission_writing::write_admission;
pub use admissions::Admission;
pub use admitting::{admits, header_of, number_of};
pub use colliding::collide_headers;
pub use opened_roots::OpenedRoot;
pub use proposers::Proposer;
pub use runs::{run_by, set_of_run, slot_of_run};
pub use system_fault::SystemFault;
pub use system_reading::{read_system, system_alone};
pub use system_writing::write_system;
pub use systems::System;
