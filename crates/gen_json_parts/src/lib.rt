//! Prints the verdict on a bundle as JSON, and what stands in a file line by line, by the kit's `serde_json`.
//!
//! The verdict is one line: a JSON object without spaces, whose fields stand in the order of their names, and a line
//! feed. A contract says which value it is the text of, and that a reader of JSON finds this value in it.
//!
//! Headers, bundles, the runs of a campaign, evidence and faults are lines that `gen_json_files` puts together. Where
//! something stands in the file, its object has the byte at which it begins. The contracts give the lines, byte for
//! byte.
#![tactic(auto)]

mod bundles;
mod entries;
mod evidence;
mod faults;
mod findings;
mod headers;
mod logs;
mod statuses;
mod verdicts;

pub use bundles::{push_bundle, push_end, push_runs};
pub use evidence::push_evidence;
pub use faults::push_fault;
pub use headers::push_header;
pub use verdicts::{judgement_value, print_verdict_json};
