//! Trees of one-time keys that come from a seed.
ghost use Rattle.std.specs.Prelude.{◌≡◌, ◌<◌, ◌+◌, IfOk};
ghost use Rattle.gen_lms.specs.Heights.{leaves_of};
ghost use Rattle.gen_lms.specs.Rings.{public_key_of, tree_leaves};
ghost use Rattle.gen_lms.specs.Tree.{leaf};
ghost use Rattle.gen_lmots.specs.Keys.{public_key};

use crate::heights::LmsHeight;
use crate::leaf_keys::LeafKey;
use crate::nodes::{leaf, node_of, nodes_above, path_of};
use crate::public_keys::PublicKey;
use gen_lmots::{KeyPlace, OneTimeKey, public_key};
use std::alloc::{AllocError, Global};
use std::marker::Model;

/// The tree of keys of a seed: its leaves, and the nodes above them. A contract sees the identifier, the seed
/// and the height.
///
/// Making the tree takes nearly all the time of making a ring. The tree has the seed, which isn't wiped from
/// memory.
#[derive(Drop)]
pub struct KeyTree {
    identifier: [u8; 16],
    seed: [u8; 32],
    height: LmsHeight,
    leaves: Vec<[u8; 32]>,
    // The nodes above the leaves, from the one with the greatest number down to the root.
    nodes: Vec<[u8; 32]>,
}

impl Model for KeyTree {
    ghost use Rattle.std.specs.Prelude.{◌≡◌, ◌+◌, length};
    ghost use Rattle.gen_lms.specs.Rings.{TreeName, tree_leaves};
    ghost use Rattle.gen_lms.specs.Loops.Nodes.{AreInner};

    ghost Value = { TreeName };

    ghost view = { λ t. record { identifier = t.identifier; seed = t.seed; height = t.height } };

    ghost invariant = { λ t. (t.leaves.items
        ≡ tree_leaves (record { identifier = t.identifier; seed = t.seed; height = t.height }))
        × (length t.nodes.items + 1 ≡ length t.leaves.items)
        × AreInner t.identifier t.leaves.items t.nodes.items };
}

/// Returns the leaf with this number of the tree of a seed, over its one-time public key. Several workers may
/// each make some leaves of one tree.
pub fn leaf_of(identifier: &[u8; 16], seed: &[u8; 32], height: LmsHeight, number: u32) -> [u8; 32]
    requires { number < leaves_of height }
    ensures { result ≡ leaf identifier.now (leaves_of height + number)
        (public_key seed.now (record { identifier = identifier.now; number = number })) }
{
    let place = KeyPlace {
        identifier: *identifier,
        number,
    };
    leaf(
        identifier,
        height.leaves() + number,
        &public_key(seed, &place),
    )
}

impl KeyTree {
    /// Returns the tree of a seed with this identifier and height. Its time and memory grow with the number of
    /// leaves: a leaf takes 1,109 compressions of SHA-256 and 64 bytes.
    ///
    /// # Errors
    ///
    /// `AllocError` if memory is refused.
    pub fn from_seed(
        alloc: Global,
        identifier: &[u8; 16],
        seed: &[u8; 32],
        height: LmsHeight,
    ) -> Result<KeyTree, AllocError>
        ensures { IfOk result (λ tree. tree
            ≡ record { identifier = identifier.now; seed = seed.now; height = height }) }
    {
        let mut leaves = Vec::with_capacity(alloc, height.leaves() as usize)?;
        'leaves: for number in 0..height.leaves() {
            let leaf = leaf_of(identifier, seed, height, number);
            leaves.extend_from_slice(&[leaf])?;
        }
        KeyTree::of_leaves(alloc, identifier, seed, height, leaves)
    }

    /// Returns the tree of a seed over its leaves, which `leaf_of` makes. All of them have to be given, in the
    /// order of their numbers.
    ///
    /// # Errors
    ///
    /// `AllocError` if memory is refused. The leaves are lost then.
    pub fn of_leaves(
        alloc: Global,
        identifier: &[u8; 16],
        seed: &[u8; 32],
        height: LmsHeight,
        leaves: Vec<[u8; 32]>,
    ) -> Result<KeyTree, AllocError>
        requires { leaves.items ≡ tree_leaves
            (record { identifier = identifier.now; seed = seed.now; height = height }) }
        ensures { IfOk result (λ tree. tree
            ≡ record { identifier = identifier.now; seed = seed.now; height = height }) }
    {
        let nodes = nodes_above(alloc, identifier, leaves.as_slice())?;
        Ok(KeyTree {
            identifier: *identifier,
            seed: *seed,
            height,
            leaves,
            nodes,
        })
    }

    /// Returns the height of the tree.
    pub fn height(&self) -> LmsHeight
        ensures { result ≡ self.now.height }
    {
        self.height
    }

    /// Returns the public key of the tree.
    pub fn public_key(&self) -> PublicKey
        ensures { result ≡ public_key_of self.now }
    {
        let root = node_of(self.leaves.as_slice(), self.nodes.as_slice(), 1);
        PublicKey {
            height: self.height,
            identifier: self.identifier,
            root,
        }
    }

    // Returns the key of a leaf, with its path. This call may make the key of one leaf twice: the ring sees to
    // it that none is given twice.
    pub(crate) fn leaf_key(&self, number: u32) -> LeafKey
        requires { number < leaves_of self.now.height }
        ensures { result ≡ record { tree = self.now; number = number } }
    {
        let place = KeyPlace {
            identifier: self.identifier,
            number,
        };
        let path = path_of(
            self.leaves.as_slice(),
            self.nodes.as_slice(),
            self.height,
            self.height.leaves() + number,
        );
        LeafKey {
            key: OneTimeKey::new(&self.seed, place),
            height: self.height,
            path,
        }
    }
}
