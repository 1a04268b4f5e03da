//! Prints decisions, evidence and faults as JSON, by the kit's `serde_json`.
//!
//! The text of each is one line: a JSON object without spaces, whose fields stand in the order of their names, and a line
//! feed. A contract says of each text which value it is the text of, and that a reader of JSON finds this value in it.
//! So two lines are equal if and only if their values are.
//!
//! `gen_json_parts` and `gen_json_files` make further lines of what stands here: objects that are made field by field,
//! numbers, sets and digits, and where an answer comes from.
#![tactic(auto)]

mod claims;
mod convictions;
mod decided_logs;
mod decisions;
mod evidence;
mod failures;
pub mod laws;
mod lines;
mod numbers;
mod objects;
mod origins;

pub use convictions::{conviction_value, convictions_value};
pub use decided_logs::{decided_value, logs_value};
pub use decisions::{all_decided_value, print_decisions_json};
pub use evidence::{evidence_value, print_evidence_json};
pub use failures::print_failure_json;
pub use lines::{push_value, value_line};
pub use numbers::{
    all_digits_value, digits_value, network_value, pairs_value, path_value, set_value,
};
pub use objects::{JSON_VERSION, ObjectBuilder};
pub use origins::{Origin, TOOL_VERSION, finish_from};
