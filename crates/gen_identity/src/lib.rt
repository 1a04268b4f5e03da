//! Identities of generals. An identity stands for 2^h sets of one-time keys, h at most 20: it is the top of a tree of
//! hashes over the roots of the sets. Each set is one tree of keys, with a seed of its own.
//!
//! The seeds come from a ratchet: the state of a general's secret gives the seed of one set and the next state. A general
//! that keeps the newest state alone keeps no seed of an earlier set.
//!
//! An opening shows that a root is that of the set with a certain index: it has the siblings of the set's leaf. What is
//! promised: `opens` returns true if and only if the definition holds; the openings that `open_at` and `IdentityBuilder`
//! make open the roots that they were made of; and whoever opens one set of an identity to two roots gives two texts with
//! one SHA-256, which `collide` finds.
//!
//! What is not promised: that nobody can find such texts, or that seeds and states stay secret. Memory isn't wiped. Two
//! copies of one state give the same seeds: whoever makes one has to see to it that no set is used twice.
#![tactic(auto)]

mod building;
mod colliding;
mod identities;
mod nodes;
mod opening_bytes;
mod opening_fault;
mod openings;
mod secrets;
mod set_states;
pub mod sizes;
mod states;

pub use building::IdentityBuilder;
pub use colliding::{Collision, collide};
pub use identities::{Identity, identity_of};
pub use opening_bytes::{one_opening_spelling, opening_in_front, read_opening, write_opening};
pub use opening_fault::OpeningFault;
pub use openings::{Opening, open_at, opens};
pub use secrets::identity_of_sets;
pub use set_states::NumberedState;
pub use states::{State, steps_add_up};
