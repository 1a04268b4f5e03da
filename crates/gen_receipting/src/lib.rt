//! The jobs over receipts: receipt, receipts, accuse by receipts.
//!
//! A receipt is the end of a general's log, which shows the decision of the general without the log. `receipt` makes
//! one of a log in a bundle. `receipts` tells which of several hold, which orders they show, and which generals they
//! convict. `accuse_by_receipts` writes the evidence of such a conviction. Each takes the bytes of an input, and
//! returns the output that answers it, or its first fault. No thread is started.
#![tactic(auto)]

mod accusing;
mod facts;
mod giving;
mod json;
mod reading;
mod telling;
mod text;
mod told;

pub use accusing::accuse_by_receipts;
pub use giving::receipt;
pub use json::print_receipts_json;
pub use telling::receipts;
pub use text::print_receipts;
pub use told::{Told, ToldReceipt, told_by};
