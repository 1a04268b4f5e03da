//! Rings of keys.
ghost use Rattle.std.specs.Prelude.{ℕ, ◌≡◌, ◌↔◌, ◌≤◌, ◌<◌, ◌⊎◌, [], Contains};
ghost use Rattle.std.specs.Prelude.{IfOk, IsNone, IfNone, OnSome, IfSome};
ghost use Rattle.gen_types.specs.Ascending.{IsListOf};
ghost use Rattle.gen_types.specs.Heights.{leaves_of};
ghost use Rattle.gen_tree.specs.Rings.{ring_root};

use crate::key_trees::KeyTree;
use crate::keys::LeafKey;
use crate::leaf_set::LeafSet;
use gen_types::TreeHeight;
use std::alloc::{AllocError, Global};
use std::marker::Model;

/// The one-time keys of a seed, one for each leaf of a tree, under one root. A contract sees the seed, the
/// height, and the ascending list of the leaves that were taken.
///
/// It has no `Clone` and no `Drop`, so it can't be copied and has to be ended by `close`. Its seed isn't
/// wiped from memory.
pub struct KeyRing {
    tree: KeyTree,
    taken: LeafSet,
}

impl Model for KeyRing {
    ghost use Rattle.std.specs.Prelude.{ℕ, ◌<◌, Contains};
    ghost use Rattle.gen_types.specs.Heights.{leaves_of};
    ghost use Rattle.gen_tree.specs.Rings.{Ring};

    ghost Value = { Ring };

    ghost view = { λ r. record {
      seed = r.tree.seed;
      height = r.tree.height;
      taken = r.taken;
    } };

    ghost invariant = { λ r. (v : ℕ) → Contains r.taken v → v < leaves_of r.tree.height };
}

impl KeyRing {
    /// Returns the ring of a seed with a tree of this height, with no leaf taken.
    ///
    /// The ring of a general is that of its seed, `general_seed`. A second ring of the same seed and
    /// height gives each leaf again: whoever makes one has to see to it that no leaf signs two digests.
    ///
    /// # Errors
    ///
    /// `AllocError` if memory is refused.
    pub fn from_seed(
        alloc: Global,
        seed: &[u8; 32],
        height: TreeHeight,
    ) -> Result<KeyRing, AllocError>
        ensures { IfOk result (λ ring. ring
            ≡ record { seed = seed.now; height = height; taken = [] }) }
    {
        Ok(KeyRing {
            tree: KeyTree::from_seed(alloc, seed, height)?,
            taken: LeafSet::new(),
        })
    }

    /// Returns the ring of a tree, with no leaf taken. It is equal to that of `from_seed` with the same
    /// seed and height, but nothing is hashed.
    ///
    /// A second ring of the same tree gives each leaf again.
    ///
    /// # Errors
    ///
    /// `AllocError` if memory is refused.
    pub fn open(tree: &KeyTree) -> Result<KeyRing, AllocError>
        ensures { IfOk result (λ ring. ring
            ≡ record { seed = tree.now.seed; height = tree.now.height; taken = [] }) }
    {
        let tree = tree.clone()?;
        let taken = LeafSet::new();
        Ok(KeyRing { tree, taken })
    }

    /// Returns the height of the ring's tree.
    pub fn height(&self) -> TreeHeight
        ensures { result ≡ self.now.height }
    {
        self.tree.height()
    }

    /// Returns the root of the ring's tree, which is its public key.
    pub fn root(&self) -> [u8; 32]
        ensures { result ≡ ring_root self.now.seed self.now.height }
    {
        self.tree.root()
    }

    /// Takes a leaf, and returns its key. Returns None if and only if the leaf was taken before, or the
    /// tree has no leaf of this number; then the ring is unchanged.
    pub fn take(&mut self, leaf: u8) -> Option<LeafKey>
        ensures none { IsNone result
            ↔ ((leaves_of self.old.height ≤ leaf) ⊎ Contains self.old.taken leaf) }
        ensures unchanged { IfNone result (self.new ≡ self.old) }
        ensures key { IfSome result (λ key. key ≡ record {
          seed = self.old.seed;
          height = self.old.height;
          leaf = leaf;
        }) }
        ensures seed { self.new.seed ≡ self.old.seed }
        ensures height { self.new.height ≡ self.old.height }
        ensures taken { OnSome result
            (IsListOf self.new.taken (λ v. Contains self.old.taken v ⊎ (v ≡ leaf))) }
    {
        if leaf >= self.tree.height().leaves() || self.taken.contains(leaf) {
            return None;
        }
        self.taken.insert(leaf);
        Some(self.tree.leaf_key(leaf))
    }

    /// Ends the ring, and returns the set of the leaves that were taken.
    pub fn close(self) -> LeafSet
        ensures taken { result ≡ self.taken }
        ensures below { (v : ℕ) → Contains result v → v < leaves_of self.height }
    {
        let KeyRing { tree: _, taken } = self;
        taken
    }
}

/// Closes a ring, if there is one, without telling the leaves that were taken from it.
pub fn close_ring(ring: Option<KeyRing>) {
    if let Some(ring) = ring {
        ring.close();
    }
}
