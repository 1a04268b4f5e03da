//! What the commands of identities and systems answer: from the bytes of their files to the bytes of their output.
//!
//! `enroll` writes the file of roots of a secret, or what is missing of it. `identity_text` tells the identity over such a
//! file, `system_of_text` makes a system from the text of a header, `admission_of_files` makes an admission from a system and
//! the files of roots of its nodes, and `header_admitted` makes the header of a run from an admission. `runs_admitted` reads
//! the runs that an admission admits, `job_among` asks a job for an input that is of them, and `text_among` tells them beside
//! its answer. They need no reader, no writer but that of `enroll`, and no words of a command line.
#![tactic(auto)]

mod admitted;
mod admitting;
mod among;
mod asking;
mod enroll_error;
mod enroll_fault;
mod enrolling;
mod fronts;
mod gathering;
mod laws;
mod pieces;
mod progress;
mod systems;
mod telling;

pub use admitted::{AdmittedRun, AdmittedRuns, nodes_of_run, runs_admitted};
pub use admitting::header_admitted;
pub use among::{JobAmong, job_among, text_among};
pub use asking::{keep_runs, runs_asked};
pub use enroll_error::EnrollError;
pub use enroll_fault::EnrollFault;
pub use enrolling::{Enrolment, enroll, identity_text};
pub use gathering::{NodeRoots, admission_of_files};
pub use laws::files_lead_to_headers;
pub use progress::Progress;
pub use systems::{Made, system_of_text};
pub use telling::{admitted_json, admitted_text, answer_with};
