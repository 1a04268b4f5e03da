//! Rings of keys.
ghost use Rattle.std.specs.Prelude.{◌≡◌, ◌↔◌, ◌≤◌, ◌<◌, ◌+◌, IsNone, IfNone, IfSome, OnSome, IsTrue, IsFalse};
ghost use Rattle.gen_lms.specs.Heights.{leaves_of};
ghost use Rattle.gen_lms.specs.Rings.{public_key_of};

use crate::leaf_keys::LeafKey;
use crate::public_keys::PublicKey;
use crate::trees::KeyTree;
use std::marker::Model;

/// The one-time keys of a tree, which are given in the order of their leaves. A contract sees the tree, and
/// the number of the leaf that is given next.
///
/// It has no `Clone` and no `Drop`, so it can't be copied and has to be ended by `close`. Its seed isn't wiped
/// from memory.
pub struct KeyRing {
    tree: KeyTree,
    next: u32,
}

impl Model for KeyRing {
    ghost use Rattle.std.specs.Prelude.{◌≤◌};
    ghost use Rattle.gen_lms.specs.Heights.{leaves_of};
    ghost use Rattle.gen_lms.specs.Rings.{Ring};

    ghost Value = { Ring };

    ghost view = { λ r. record { tree = r.tree; next = r.next } };

    ghost invariant = { λ r. r.next ≤ leaves_of r.tree.height };
}

impl KeyRing {
    /// Returns the ring of a tree, of which no leaf is taken.
    ///
    /// A second ring of the same tree gives each leaf again: whoever makes one has to see to it that no leaf
    /// signs two messages.
    pub fn open(tree: KeyTree) -> KeyRing
        ensures { result ≡ record { tree = tree; next = 0 } }
    {
        KeyRing { tree, next: 0 }
    }

    /// Returns the public key of the ring's tree.
    pub fn public_key(&self) -> PublicKey
        ensures { result ≡ public_key_of self.now.tree }
    {
        self.tree.public_key()
    }

    /// Takes the next leaf, and returns its key. Returns None if and only if every leaf was taken or passed
    /// over; then the ring is unchanged.
    pub fn take(&mut self) -> Option<LeafKey>
        ensures none { IsNone result ↔ (leaves_of self.old.tree.height ≤ self.old.next) }
        ensures unchanged { IfNone result (self.new ≡ self.old) }
        ensures key { IfSome result (λ key. key
            ≡ record { tree = self.old.tree; number = self.old.next }) }
        ensures next { OnSome result (self.new
            ≡ record { tree = self.old.tree; next = self.old.next + 1 }) }
    {
        if self.next >= self.tree.height().leaves() {
            return None;
        }
        let key = self.tree.leaf_key(self.next);
        self.next += 1;
        Some(key)
    }

    /// Passes over all leaves before this one, so that it is the next. Returns false if and only if it is
    /// behind the last leaf and one more, or before the next one, which may be taken; then the ring is
    /// unchanged.
    pub fn skip_to(&mut self, number: u32) -> bool
        ensures some { IsTrue result
            ↔ ((self.old.next ≤ number) × (number ≤ leaves_of self.old.tree.height)) }
        ensures skipped { IsTrue result → self.new ≡ record { tree = self.old.tree; next = number } }
        ensures unchanged { IsFalse result → self.new ≡ self.old }
    {
        if number < self.next || number > self.tree.height().leaves() {
            return false;
        }
        self.next = number;
        true
    }

    /// Ends the ring, and returns the number of the leaf that is next.
    pub fn close(self) -> u32
        ensures { result ≡ self.next }
    {
        let KeyRing { tree: _, next } = self;
        next
    }
}
