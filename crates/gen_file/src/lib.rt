//! What a file is by its first bytes, where the parts of a file stand, and the names of the faults of what doesn't read.
//!
//! What a file is, line by line, has two forms: lines of text and lines of JSON. This crate has what both forms need. So
//! both read a file as the same kind, and tell the same byte of a part and the same name of a fault.
//!
//! What is promised: the kind, the bytes and the names, each exactly. The first bytes alone say the kind, so the rest of
//! the bytes may be anything.
#![tactic(auto)]

mod equal_roots;
mod faults;
mod file_faults;
mod kinds;
mod lists;
mod marks;
mod parts;
mod shown;

pub use equal_roots::push_equal_roots;
pub use faults::{push_header_fault, push_log_fault};
pub use file_faults::{push_bundle_fault, push_evidence_fault};
pub use kinds::FileKind;
pub use lists::{push_generals, push_members};
pub use marks::{BUNDLE_MARKS, EVIDENCE_MARKS, begins_header, file_kind, version_number};
pub use parts::{
    EXHIBIT_FRONT, LOG_FRONT, bundle_front_length, claim_log_at, exhibit_bytes, front_length,
};
pub use shown::Shown;
