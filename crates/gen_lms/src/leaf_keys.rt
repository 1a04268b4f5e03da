//! The keys of leaves, and the signatures that they make.
ghost use Rattle.std.specs.Prelude.{◌≡◌, ◌≤◌, ◌+◌, ◌*◌, ◌++◌, length, IfOk};
ghost use Rattle.gen_lmots.specs.Strings.{hash_length, u32str};
ghost use Rattle.gen_lmots.specs.Signatures.{signature_of};
ghost use Rattle.gen_lms.specs.Heights.{levels_of, tree_code};
ghost use Rattle.gen_lms.specs.Rings.{public_key_of, tree_signature};
ghost use Rattle.gen_lms.specs.Signatures.{Verifies};

use crate::heights::LmsHeight;
use crate::sizes::{MOST_PATH_BYTES, path_bytes, signature_bytes};
use gen_lmots::{OneTimeKey, append};
use std::alloc::{AllocError, Global};
use std::marker::Model;

/// Room for one signature by a leaf of a tree of some height. It is all the memory that is needed to make one.
/// A contract sees the height.
#[derive(Debug, Drop)]
pub struct SignatureRoom {
    bytes: Vec<u8>,
    height: LmsHeight,
}

impl Model for SignatureRoom {
    ghost use Rattle.std.specs.Prelude.{◌≡◌, ◌≤◌, [], vec_capacity};
    ghost use Rattle.gen_lms.specs.declared.heights.LmsHeight.{LmsHeight};
    ghost use Rattle.gen_lms.specs.Signatures.{signature_length};

    ghost Value = { LmsHeight };

    ghost view = { λ r. r.height };

    ghost invariant = { λ r. (r.bytes.items ≡ []) × (signature_length r.height ≤ vec_capacity r.bytes) };
}

impl SignatureRoom {
    /// Returns room for a signature by a leaf of a tree of this height.
    ///
    /// # Errors
    ///
    /// `AllocError` if memory is refused.
    pub fn new(alloc: Global, height: LmsHeight) -> Result<SignatureRoom, AllocError>
        ensures { IfOk result (λ room. room ≡ height) }
    {
        let bytes = Vec::with_capacity(alloc, signature_bytes(height))?;
        Ok(SignatureRoom { bytes, height })
    }

    // Returns the bytes of the signature by a one-time key, with the height and the path of its leaf.
    fn signed_by(
        self,
        key: OneTimeKey,
        path: &[u8],
        randomizer: &[u8; 32],
        message: &[u8],
    ) -> Vec<u8>
        requires { length path.now ≡ hash_length * levels_of self }
        ensures { result.items ≡ u32str key.place.number
            ++ (signature_of key.seed key.place randomizer.now message.now
            ++ (u32str (tree_code self) ++ path.now)) }
    {
        let SignatureRoom { mut bytes, height } = self;
        append(&mut bytes, &key.number().to_be_bytes());
        key.sign(randomizer, message, &mut bytes);
        append(&mut bytes, &height.type_code().to_be_bytes());
        append(&mut bytes, path);
        bytes
    }
}

/// The key of one leaf of a ring, which signs one message or is retired. A contract sees its tree and the
/// number of its leaf.
///
/// It has no `Clone` and no `Drop`, so it can't be copied and has to be spent by `sign` or `retire`. Spending
/// it can't fail. Its seed isn't wiped from memory.
pub struct LeafKey {
    pub(crate) key: OneTimeKey,
    pub(crate) height: LmsHeight,
    pub(crate) path: [u8; MOST_PATH_BYTES],
}

impl Model for LeafKey {
    ghost use Rattle.std.specs.Prelude.{◌≡◌, ◌<◌, ◌*◌, take};
    ghost use Rattle.gen_lmots.specs.Strings.{hash_length};
    ghost use Rattle.gen_lms.specs.Heights.{leaves_of, levels_of};
    ghost use Rattle.gen_lms.specs.Rings.{LeafName, tree_path};

    ghost Value = { LeafName };

    ghost view = { λ k. record {
      tree = record {
        identifier = k.key.place.identifier;
        seed = k.key.seed;
        height = k.height;
      };
      number = k.key.place.number;
    } };

    ghost invariant = { λ k. (take (hash_length * levels_of k.height) k.path ≡ tree_path
        (record { identifier = k.key.place.identifier; seed = k.key.seed; height = k.height })
        k.key.place.number) × (k.key.place.number < leaves_of k.height) };
}

impl LeafKey {
    /// Returns the height of the ring's tree.
    pub fn height(&self) -> LmsHeight
        ensures { result ≡ self.now.tree.height }
    {
        self.height
    }

    /// Returns the number of the leaf.
    pub fn number(&self) -> u32
        ensures { result ≡ self.now.number }
    {
        self.key.number()
    }

    /// Ends the key, and returns its signature of a message with a randomizer, which verifies under the public
    /// key of the ring's tree. The randomizer has to be one that nobody could foresee when the message was
    /// chosen. The room must be for the height of the tree. The call takes no memory beyond the room and can't
    /// fail.
    pub fn sign(self, room: SignatureRoom, randomizer: &[u8; 32], message: &[u8]) -> Vec<u8>
        requires { room ≡ self.tree.height }
        ensures bytes { result.items ≡ tree_signature self randomizer.now message.now }
        ensures verifies { Verifies (public_key_of self.tree) message.now result.items }
    {
        let LeafKey { key, height, path } = self;
        room.signed_by(key, &path[..path_bytes(height)], randomizer, message)
    }

    /// Ends the key unused, and returns the number of its leaf.
    pub fn retire(self) -> u32
        ensures { result ≡ self.number }
    {
        let LeafKey {
            key,
            height: _,
            path: _,
        } = self;
        key.retire()
    }
}
