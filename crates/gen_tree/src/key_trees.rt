//! The trees of seeds, from which rings are opened.
ghost use Rattle.std.specs.Prelude.{◌≡◌, ◌<◌, length, IfOk};
ghost use Rattle.gen_types.specs.Heights.{leaves_of};
ghost use Rattle.gen_tree.specs.Rings.{ring_root};

use crate::keys::LeafKey;
use crate::nodes::{node_at, siblings_of};
use gen_ots::{OneTimeKey, leaf_values};
use gen_types::TreeHeight;
use sha_lanes::LANES;
use std::alloc::{AllocError, Global};
use std::marker::Model;

/// The number of leaves whose values are hashed side by side.
const LEAVES_A_TURN: u8 = LANES as u8;

/// The tree of keys of a seed: the values of all its leaves. A contract sees the seed and the height.
///
/// Making the tree takes nearly all the time of making a ring, so it pays to keep the tree if a ring will
/// be needed again. The tree has the seed, which isn't wiped from memory.
#[derive(Drop)]
pub struct KeyTree {
    seed: [u8; 32],
    height: TreeHeight,
    leaves: Vec<[u8; 32]>,
}

impl Model for KeyTree {
    ghost use Rattle.std.specs.Prelude.{◌≡◌};
    ghost use Rattle.gen_tree.specs.Rings.{KeyTree, ring_leaves};

    ghost Value = { KeyTree };

    ghost view = { λ t. record { seed = t.seed; height = t.height } };

    ghost invariant = { λ t. t.leaves.items ≡ ring_leaves t.seed t.height };
}

impl KeyTree {
    /// Returns the tree of a seed and a height.
    ///
    /// # Errors
    ///
    /// `AllocError` if memory is refused.
    pub fn from_seed(
        alloc: Global,
        seed: &[u8; 32],
        height: TreeHeight,
    ) -> Result<KeyTree, AllocError>
        ensures { IfOk result (λ tree. tree ≡ record { seed = seed.now; height = height }) }
    {
        let mut leaves = Vec::with_capacity(alloc, usize::from(height.leaves()))?;
        'turns: for turn in 0..height.leaves() / LEAVES_A_TURN {
            let values = leaf_values(seed, height, LEAVES_A_TURN * turn);
            leaves.extend_from_slice(&values)?;
        }
        Ok(KeyTree {
            seed: *seed,
            height,
            leaves,
        })
    }

    /// Returns the height of the tree.
    pub fn height(&self) -> TreeHeight
        ensures { result ≡ self.now.height }
    {
        self.height
    }

    /// Returns the root of the tree, which is the public key of its rings.
    pub fn root(&self) -> [u8; 32]
        ensures { result ≡ ring_root self.now.seed self.now.height }
    {
        node_at(self.leaves.as_slice(), self.height.levels(), 0)
    }

    // Returns the key of a leaf, with its siblings. This call may make the key of one leaf twice: the ring
    // sees to it that none is given twice.
    pub(crate) fn leaf_key(&self, leaf: u8) -> LeafKey
        requires { leaf < leaves_of self.now.height }
        ensures { result ≡ record {
          seed = self.now.seed;
          height = self.now.height;
          leaf = leaf;
        } }
    {
        LeafKey {
            key: OneTimeKey::new(&self.seed, self.height, leaf),
            siblings: siblings_of(self.leaves.as_slice(), self.height, leaf),
        }
    }
}

/// A copy is equal to its original. Copying fails only if memory was refused.
impl Clone for KeyTree {
    ghost is_clone = { λ tree copy. copy ≡ tree };

    fn clone(&self) -> Result<KeyTree, AllocError> {
        let leaves = Vec::from_slice(*self.leaves.allocator(), self.leaves.as_slice())?;
        Ok(KeyTree {
            seed: self.seed,
            height: self.height,
            leaves,
        })
    }
}
