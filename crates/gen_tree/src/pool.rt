//! Signatures that share their bytes.
ghost use Rattle.std.specs.Prelude.{◌≡◌, length, IfOk};
ghost use Rattle.gen_tree.specs.Sizes.{signature_length};

use crate::signatures::Signature;
use gen_ots::sizes::OTS_BYTES;
use gen_types::TreeHeight;
use std::alloc::{AllocError, Global};
use std::collections::BTreeMap;
use std::marker::Model;

/// The number of a signature's first bytes by which it is found.
const NAME_BYTES: usize = 8;

/// Signatures that were read, kept so that equal ones need not stand in memory twice. Of the signatures
/// with the same first eight bytes the pool keeps the last one. A contract sees nothing of the pool, since
/// it changes nothing of what is read.
#[derive(Debug, Drop)]
pub struct SignaturePool {
    alloc: Global,
    known: BTreeMap<u64, Signature>,
}

impl Model for SignaturePool {
    ghost use Rattle.std.specs.Prelude.{⊤};

    ghost Value = { ⊤ };

    ghost view = { λ _. tt };
}

impl SignaturePool {
    /// Returns a pool without signatures. The pool takes no memory before the first signature is read.
    pub fn new(alloc: Global) -> SignaturePool {
        SignaturePool {
            alloc,
            known: BTreeMap::new(alloc),
        }
    }

    /// Returns the signature with these bytes, which must be as many as a signature of this height has. It
    /// shares its memory with an equal signature of the pool, if there is one.
    ///
    /// # Errors
    ///
    /// `AllocError` if memory is refused.
    pub fn read(&mut self, height: TreeHeight, bytes: &[u8]) -> Result<Signature, AllocError>
        requires { length bytes.now ≡ signature_length height }
        ensures { IfOk result (λ signature. signature ≡ bytes.now) }
    {
        let mut name = [0; NAME_BYTES];
        name.copy_from_slice(&bytes[..NAME_BYTES]);
        let name = u64::from_be_bytes(name);
        if let Some(known) = self.known.get(&name) {
            let (pairs, siblings) = known.parts();
            let (other_pairs, other_siblings) = bytes.split_at(OTS_BYTES);
            if pairs == other_pairs && siblings == other_siblings {
                return known.share(self.alloc);
            }
        }
        let signature = Signature::shared(self.alloc, height, bytes)?;
        self.known.insert(name, signature.share(self.alloc)?)?;
        Ok(signature)
    }
}
