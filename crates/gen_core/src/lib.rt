//! The signed message algorithm without signatures and bytes: the commander, the lieutenants, and what they
//! send.
//!
//! It is SM(m) of section 4 of L. Lamport, R. Shostak and M. Pease, "The Byzantine Generals Problem", ACM
//! TOPLAS 4 (1982), with messages to neighbours only, as in section 5. Two things differ. A lieutenant adds
//! every order that comes from the commander in round 1, where step 2(A) takes the first alone. With one round
//! nothing is relayed.
#![tactic(auto)]

mod arrivals;
mod commanding;
pub mod laws;
mod lieutenants;
mod picks;
mod sending;

pub use arrivals::Seen;
pub use commanding::Commander;
pub use lieutenants::Lieutenant;
pub use picks::Adds;
pub use sending::{Outgoing, sends};
