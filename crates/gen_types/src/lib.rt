//! This crate has the values of the signed message algorithm: the numbers of generals and of orders,
//! sets of them, paths and choices.
//!
//! L. Lamport, R. Shostak and M. Pease, "The Byzantine Generals Problem", ACM TOPLAS 4 (1982),
//! describe the algorithm in section 4. Here the commander is general 0, and a function `choice` maps a
//! set of orders to one order. All types of this crate are small values; only `split_fields` takes memory.
#![tactic(auto)]

mod choices;
mod fields;
mod heights;
pub mod limits;
mod numbers;
mod paths;
mod reading;
mod sets;
mod texts;

pub use choices::{Choice, ChoiceKind, MedianOrder, OnlyOrRetreat};
pub use fields::{bytes_at, u8_at, u16_at, u32_at, u64_at};
pub use heights::TreeHeight;
pub use numbers::{GeneralNo, Generals, Number, NumberFault, OrderNo, Orders};
pub use paths::{Path, PathFault};
pub use reading::{ReadError, check};
pub use sets::{GeneralMembers, GeneralSet, Members, NumberSet, OrderMembers, OrderSet};
pub use texts::{decimal_number, split_fields};
