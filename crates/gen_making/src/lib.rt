//! The jobs that make bundles and what a run needs before: run, campaign, root, header, and a bundle of a header and logs.
//!
//! `run` and `campaign` run scenarios by threads, and give the bytes of the bundles of their runs. `run_engine` and
//! `campaign_engine` read the scenarios and write these bytes in pieces, so that the logs need no copy. `root` and
//! `header` prepare a run. `join_in_pieces` makes a bundle of a header and logs, and `answer_evidence` answers evidence
//! by a log.
#![tactic(auto)]

mod bundle_text;
mod campaign_text;
mod campaigning;
mod joining;
mod preparing;
mod running;

pub use bundle_text::{BundleText, deliver_bundle};
pub use campaigning::{campaign, campaign_engine};
pub use joining::{answer_evidence, join_in_pieces};
pub use preparing::{header, root};
pub use running::{run, run_engine, seeded_scenario};
