//! What a general without a script keeps: its ring, and what it signed in its current round.
use gen_chain::SignedChain;
use gen_tree::KeyRing;
use std::marker::Model;

/// A general that has no script. It holds its ring. A contract sees the ring and the chains that the general
/// signed in this round.
pub(crate) struct Follower {
    pub(crate) ring: KeyRing,
    pub(crate) signed: Vec<SignedChain>,
}

impl Model for Follower {
    ghost use Rattle.gen_general.specs.Loops.Acting.{Follower};

    ghost Value = { Follower };

    ghost view = { λ f. record { ring = f.ring; signed = f.signed.items } };
}
