//! How a job ends: its output, or why it failed, with the exit status and the line of the fault.
//!
//! A job has its input whole, and writes its output whole. `read_all` reads an input to its end; `deliver` writes the
//! output, or nothing where there is a fault in its place. The definition `Answers` says what the end of a job promises
//! of its input and of what was written. `Open` is the gate of the jobs' threads.
#![tactic(auto)]

mod ends;
mod fault_lines;
mod gates;
mod transfer;

pub use ends::{JobEnd, JobFault, Output};
pub use fault_lines::job_fault_line;
pub use gates::Open;
pub use transfer::{deliver, read_all};
