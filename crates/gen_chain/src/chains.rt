//! Signed chains.
ghost use Rattle.std.specs.Prelude.{◌≡◌, ◌≤◌};
ghost use Rattle.gen_chain.specs.Chain.{IsSignedChain, signed_path};

use crate::sizes::GREATEST_ORDER;
use gen_tree::Signature;
use gen_types::{GeneralNo, OrderNo, Path, TreeHeight};
use std::alloc::AllocError;
use std::marker::Model;

/// A general and a signature.
#[derive(Debug, Drop)]
pub struct Signer {
    /// The general.
    pub general: GeneralNo,
    /// The signature that is said to be the general's. It may be any bytes; `has_signed` says whether it verifies.
    pub signature: Signature,
}

/// An order and its signers, each of which signed it after the signers before: the message `v:0:j1:..:jk` of section 4
/// of the paper of 1982, with its signatures.
///
/// The order is at most 14. There are 1 to 16 signers, which are distinct generals; the first is general 0, the
/// commander. All signatures have the length of signatures by trees of one height. A contract sees the order and the
/// list of signers.
#[derive(Debug, Drop)]
pub struct SignedChain {
    pub(crate) order: OrderNo,
    pub(crate) signers: Vec<Signer>,
    pub(crate) height: TreeHeight,
}

impl Model for SignedChain {
    ghost use Rattle.gen_chain.specs.Chain.{Chain, IsSignedChain};

    ghost Value = { Chain };

    ghost view = { λ c. record { order = c.order; signers = c.signers.items } };

    ghost invariant = { λ c. IsSignedChain c.height
        (record { order = c.order; signers = c.signers.items }) };
}

impl SignedChain {
    /// Returns the order, which is at most 14.
    pub fn order(&self) -> OrderNo
        ensures value { result ≡ self.now.order }
        ensures most { result ≤ GREATEST_ORDER }
    {
        self.order
    }

    /// Returns the height of the trees that the signatures are by.
    pub fn height(&self) -> TreeHeight
        ensures { IsSignedChain result self.now }
    {
        self.height
    }

    /// Returns the generals that signed, from the first to the last.
    pub fn path(&self) -> Path
        ensures { result ≡ signed_path self.now.signers }
    {
        let mut path = Path::new();
        let mut rest = self.signers.as_slice();
        while let Some((signer, others)) = rest.split_first() {
            path.push_new(signer.general);
            rest = others;
        }
        path
    }

    /// Returns the signers, from the first to the last.
    pub fn signers(&self) -> &[Signer]
        ensures { result.now ≡ self.now.signers }
    {
        self.signers.as_slice()
    }
}

/// A copy equals its original and shares its signatures. Copying fails only if memory is refused.
impl Clone for SignedChain {
    ghost is_clone = { λ chain copy. copy ≡ chain };

    fn clone(&self) -> Result<SignedChain, AllocError> {
        let alloc = *self.signers.allocator();
        let mut signers = Vec::with_capacity(alloc, self.signers.len())?;
        'signers: for signer in &self.signers {
            let signature = signer.signature.share(alloc)?;
            signers.push(Signer {
                general: signer.general,
                signature,
            })?;
        }
        Ok(SignedChain {
            order: self.order,
            signers,
            height: self.height,
        })
    }
}
