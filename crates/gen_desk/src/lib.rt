//! A desk at which generals file their logs, each at a place of its own, while workers claim what is filed
//! and report on it.
//!
//! A desk's state keeps its history, a list of filings, claims and reports. The history is legal, and replays to what
//! is filed, claimed and reported. What is promised: each call on the state appends its one event, or refuses and
//! changes nothing. A desk that ends has the filing of each receipt once.
//!
//! What is not promised: between two calls on the shared desk nothing is known but that its history is legal. What its
//! calls return beyond their clauses is tested.
#![tactic(auto)]

mod closing;
mod desk;
mod faults;
mod looks;
mod rows;
mod state;
mod tokens;

pub use closing::{Filed, StrangeReceipt};
pub use desk::Desk;
pub use faults::DeskFault;
pub use rows::Row;
pub use state::DeskState;
pub use tokens::{Receipt, Slip, Ticket};
