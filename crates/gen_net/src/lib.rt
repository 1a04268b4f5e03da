//! Networks of generals and the headers of runs. This crate also defines what a run of the signed message algorithm on
//! a network is (sections 4 and 5 of L. Lamport, R. Shostak and M. Pease, "The Byzantine Generals Problem", ACM TOPLAS
//! 4, 1982).
//!
//! The definitions that the later crates use are in `specs/`. They are networks, chains, runs, the generals that follow
//! the algorithm, runs in which no loyal signature is forged, and the logs of followers.
#![tactic(auto)]

mod comparing;
mod edges;
mod fault;
mod format;
mod fronts;
mod hashing;
mod headers;
pub mod laws;
mod marks;
mod message;
mod net;
mod numbers;
mod reading;
mod version;
mod writing;

pub use fault::HeaderFault;
pub use format::{VERSION_ONE, VERSION_TWO};
pub use fronts::{front_bytes, read_front, read_header_of};
pub use headers::Header;
pub use marks::{FrontFault, Marks};
pub use message::Message;
pub use net::Net;
pub use numbers::NetNumbers;
pub use reading::read_header;
pub use version::{GREATEST_SLOT, Version};
pub use writing::header_bytes;
