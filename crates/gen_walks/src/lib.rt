//! Walks inside a set of generals. Walks that are given are checked against the diameter that a run is
//! planned for, and the best walks are made.
//!
//! The signed message algorithm reaches agreement in m + d rounds if the graph of the loyal generals has a
//! diameter of at most d. Section 5 of L. Lamport, R. Shostak and M. Pease, "The Byzantine Generals
//! Problem", ACM TOPLAS 4 (1982), shows this. A walk for each pair of the loyal generals shows that the
//! graph has such a diameter. Levels show that a pair has no short walk.
#![tactic(auto)]

mod diameter;
mod fault;
mod inside;
mod levels;
mod lists;
mod make;
mod search;

pub use diameter::{DiameterProof, check_walks};
pub use fault::{BadPair, WalkFault};
pub use levels::{LevelRow, UNREACHED, check_levels};
pub use lists::{Walk, Walks};
pub use make::make_walks;
