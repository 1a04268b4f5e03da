//! The command line: from the program's words to what they ask for, or to a line that says what is wrong with them.
//!
//! `read_request` returns what words ask for: a job, and the file of its input; `read_words` returns the job alone.
//! `read_several` returns what is asked for by the words of a command that has several files, and `read_systems` by those of
//! a command of identities and systems. `read_admitting` returns the admission by which words ask for the runs of an input,
//! and `read_listing` the files that they name where a command answers several.
//! `fault_line` is the line of a fault of the words.
#![tactic(auto)]

mod admitting;
mod blaming;
mod choices;
mod command_builder;
mod command_line;
mod listing;
mod several;
mod systems;
mod words;

pub use admitting::{Admitting, read_admitting};
pub use blaming::{fault_line, given_value, show_usage};
pub use listing::{Listing, read_listing};
pub use several::{Several, read_several};
pub use systems::{Systems, SystemsFault, read_systems};
pub use words::{Request, WordsFault, read_request, read_words};
