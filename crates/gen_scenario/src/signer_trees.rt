//! Generals with the trees of their keys.
ghost use Rattle.std.specs.Prelude.{◌≡◌};

use gen_tree::KeyTree;
use gen_types::GeneralNo;
use std::alloc::AllocError;

/// A general, and the tree of its keys.
#[derive(Drop)]
pub struct SignerTree {
    /// The general.
    pub general: GeneralNo,
    /// The tree of the general's keys.
    pub tree: KeyTree,
}

/// A copy is equal to its original. Copying fails only if memory is refused.
impl Clone for SignerTree {
    ghost is_clone = { λ signer copy. copy ≡ signer };

    fn clone(&self) -> Result<SignerTree, AllocError> {
        Ok(SignerTree {
            general: self.general,
            tree: self.tree.clone()?,
        })
    }
}
