//! States with the numbers of their sets and their system, as a node keeps them.
ghost use Rattle.std.specs.Prelude.{ℕ, ◌≡◌, ◌≤◌, ◌-◌, ◌↔◌, IsTrue, IsSome, IfSome, List, ◌++◌};
ghost use Rattle.gen_identity.specs.SetStates.{IsOfSecret, state_spelling};
ghost use Rattle.gen_identity.specs.States.{seed_after, set_seed, state_after};

use crate::sizes::STATE_BYTES;
use crate::states::State;
use std::marker::Model;

/// A state of a secret, the number of its set, and the id of the system whose runs it signs. A contract sees all three.
///
/// A node keeps the newest alone: as far as SHA-256 is one-way, it has no seed of a set with a lower number. A secret serves
/// one system: the same set in two systems would sign twice under one key.
#[derive(Drop)]
pub struct NumberedState {
    number: u32,
    state: State,
    system: [u8; 32],
}

impl Model for NumberedState {
    ghost use Rattle.gen_identity.specs.SetStates.{SetState};

    ghost Value = { SetState };

    ghost view = { λ s. record { number = s.number; bytes = s.state; system = s.system } };
}

/// Returns whether two ids of systems are equal.
fn same_system(left: &[u8; 32], right: &[u8; 32]) -> bool
    ensures { IsTrue result ↔ (left.now ≡ right.now) }
{
    left == right
}

/// Returns a state and the id of a system, one behind the other.
fn joined(state: &[u8; 32], system: &[u8; 32]) -> [u8; 64]
    ensures { result ≡ state.now ++ system.now }
{
    let mut both = [0; 64];
    both[..32].copy_from_slice(state);
    both[32..].copy_from_slice(system);
    both
}

impl NumberedState {
    /// Returns the state of set 0, which is the secret, for the system with this id.
    pub fn first(secret: [u8; 32], system: [u8; 32]) -> NumberedState
        ensures number { result.number ≡ 0 }
        ensures system { result.system ≡ system }
        ensures secret { IsOfSecret secret result }
    {
        NumberedState {
            number: 0,
            state: State::new(secret),
            system,
        }
    }

    /// Returns the number of the state's set.
    pub fn number(&self) -> u32
        ensures { result ≡ self.now.number }
    {
        self.number
    }

    /// Returns the id of the system whose runs the state signs.
    pub fn system(&self) -> &[u8; 32]
        ensures { result.now ≡ self.now.system }
    {
        &self.system
    }

    /// Returns the seed of the state's set for the system with this id. It is None if and only if the state serves
    /// another system: the keys of a set sign for one system alone.
    pub fn seed(&self, system: &[u8; 32]) -> Option<[u8; 32]>
        ensures served { IsSome result ↔ (self.now.system ≡ system.now) }
        // The seed is that of the state itself, and so that of the set of whatever secret the state is.
        ensures own { IfSome result (λ seed. seed ≡ set_seed self.now.bytes) }
        ensures seed { (secret : List ℕ) → IsOfSecret secret self.now
            → IfSome result (λ seed. seed ≡ seed_after secret self.now.number) }
    {
        if same_system(&self.system, system) {
            Some(self.state.seed())
        } else {
            None
        }
    }

    /// Ends the state, and returns the state of a later set, or of the same. It serves the same system.
    pub fn advance_to(self, number: u32) -> NumberedState
        requires { self.number ≤ number }
        ensures number { result.number ≡ number }
        ensures system { result.system ≡ self.system }
        ensures bytes { result.bytes ≡ state_after self.bytes (number - self.number) }
        ensures secret { (secret : List ℕ) → IsOfSecret secret self → IsOfSecret secret result }
    {
        let NumberedState {
            number: own,
            state,
            system,
        } = self;
        NumberedState {
            number,
            state: state.advance(number - own),
            system,
        }
    }

    /// Returns the state with these bytes.
    pub fn from_bytes(bytes: &[u8; STATE_BYTES]) -> NumberedState
        ensures { state_spelling result ≡ bytes.now }
    {
        let mut number = [0; 4];
        number.copy_from_slice(&bytes[..4]);
        let mut state = [0; 32];
        state.copy_from_slice(&bytes[4..36]);
        let mut system = [0; 32];
        system.copy_from_slice(&bytes[36..]);
        NumberedState {
            number: u32::from_be_bytes(number),
            state: State::new(state),
            system,
        }
    }

    /// Returns the bytes of the state: its number in four bytes, big-endian, the state, and the id of its system. They
    /// are one record, so that all three move together. They are as secret as the state itself.
    pub fn to_bytes(&self) -> [u8; STATE_BYTES]
        ensures { result ≡ state_spelling self.now }
    {
        let mut bytes = [0; STATE_BYTES];
        bytes[..4].copy_from_slice(&self.number.to_be_bytes());
        bytes[4..].copy_from_slice(&joined(self.state.as_bytes(), &self.system));
        bytes
    }
}
