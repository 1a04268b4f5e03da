//! Verdicts, decisions and receipts as rows of numbers.
//!
//! A `Fact` is one row. Its kind says what the row is about, and which of its fields say something; all other fields are
//! 0. The facts of a run say what the text of its verdict says, and the status of each general.
#![tactic(auto)]

mod fact;
mod findings;
mod receipts;
mod runs;
mod statuses;

pub use fact::{Fact, across_fact, conviction_fact, decision_facts, equal_roots_fact};
pub use receipts::{heads_fact, receipt_fact, shown_fact};
pub use runs::push_run_facts;
pub use statuses::{Status, status_of};
