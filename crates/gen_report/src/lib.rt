//! Prints decisions and judgements as text.
//!
//! Each contract gives the text, byte for byte.
#![tactic(auto)]

mod decisions;
mod findings;
mod verdict_text;

pub use decisions::print_decisions;
pub use findings::push_finding_name;
pub use verdict_text::print_verdict;
