//! The lines of a script, which say what one traitor does: finitely many things.
//!
//! A traitor of the paper of 1982 (L. Lamport, R. Shostak and M. Pease, "The Byzantine Generals Problem",
//! ACM TOPLAS 4) may do anything but sign for a loyal general. Here a traitor does what the lines of its
//! script say. The contract of `read_script_line` says which lines may stand in a general's script, what
//! each of them says, and which fault of any other line comes first.
#![tactic(auto)]

mod fault;
mod line_fields;
mod lines;
mod path_fields;
mod reading;
mod scripts;

pub use fault::ScriptFault;
pub use lines::{Parcel, ScriptLine};
pub use reading::{one_script_line, read_script_bytes, read_script_line};
pub use scripts::Script;
