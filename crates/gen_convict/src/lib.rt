//! Evidence against a general: texts that the general signed, and that contradict each other or the signed message
//! algorithm. The algorithm is that of section 4 of L. Lamport, R. Shostak and M. Pease, "The Byzantine Generals
//! Problem", ACM TOPLAS 4, 1982.
//!
//! There are four ways to convict a general in one run. It signed two different texts under one leaf; it signed two
//! orders as the commander; a log that it sealed lacks a statement that it signed; or such a log departs from the
//! algorithm. Two runs of version 2 can use the same leaves: then two different texts of a general under one leaf
//! convict it across the runs.
//!
//! A general that follows can be convicted only by a text that it didn't sign, or by a collision of SHA-256. The
//! general's own log shows which.
#![tactic(auto)]

mod across_checking;
mod across_finding;
mod checking;
mod claim_reading;
mod claims;
mod colliding;
mod evidence;
mod evidence_fault;
mod evidence_fields;
mod evidence_reading;
mod evidence_writing;
mod finding;
mod first_texts;
mod gathered;
mod kinds;
pub mod laws;
mod log_claims;
mod own_logs;
mod refutations;
mod refuting;
mod rivals;
mod run_texts;
mod seen_texts;
mod shared_leaves;
mod text_claims;
mod text_likeness;

pub use across_finding::find_across;
pub use checking::check_evidence;
pub use claims::Claim;
pub use evidence::Evidence;
pub use evidence_fault::EvidenceFault;
pub use evidence_reading::read_evidence;
pub use evidence_writing::write_evidence;
pub use finding::find_evidence;
pub use own_logs::is_own_log;
pub use refutations::Refutation;
pub use refuting::refute;
pub use run_texts::RunText;
