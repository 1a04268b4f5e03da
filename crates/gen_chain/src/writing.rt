//! Writes chains.
ghost use Rattle.std.specs.Prelude.{◌≡◌, ◌≤◌, ◌<◌, ◌+◌, ◌++◌, IfOk, OnOk, OnErr, vec_len, vec_capacity};
ghost use Rattle.gen_chain.specs.Chain.{chain_spelling, chain_length};

use crate::chains::SignedChain;
use crate::sizes::{FRONT_BYTES, MOST_CHAIN_BYTES, signers_bytes};
use std::alloc::{AllocError, Global};

impl SignedChain {
    /// Returns the number of bytes of the chain's spelling.
    pub fn byte_count(&self) -> usize
        ensures value { result ≡ chain_length self.now }
        ensures most { result ≤ MOST_CHAIN_BYTES }
    {
        FRONT_BYTES + signers_bytes(self.height, self.signers.len() as u8)
    }

    /// Appends the one spelling of the chain: the order and the number of signers, one byte each, and for each signer
    /// its number in one byte and its signature. If the vector has room for the chain, no memory is asked for.
    ///
    /// # Errors
    ///
    /// `AllocError` where memory is refused. Then the vector is unchanged.
    pub fn append_to(&self, out: &mut Vec<u8>) -> Result<(), AllocError>
        ensures ok { OnOk result (out.new.items ≡ out.old.items ++ chain_spelling self.now) }
        ensures err { OnErr result (out.new.items ≡ out.old.items) }
        ensures full { OnErr result (vec_capacity out.old < vec_len out.old + chain_length self.now) }
        ensures len { OnOk result (vec_len out.new ≡ vec_len out.old + chain_length self.now) }
        ensures capacity { vec_capacity out.old ≤ vec_capacity out.new }
    {
        out.reserve(self.byte_count())?;
        let front = [self.order.get(), self.signers.len() as u8];
        out.extend_from_slice(&front).unwrap();
        let signers = self.signers();
        'signers: for signer in signers {
            out.push(signer.general.get()).unwrap();
            signer.signature.append_to(out).unwrap();
        }
        Ok(())
    }
}

/// Returns the one spelling of a chain: the order and the number of signers, one byte each, and for each signer its
/// number in one byte and its signature.
///
/// # Errors
///
/// `AllocError` where memory is refused.
pub fn write_chain(alloc: Global, chain: &SignedChain) -> Result<Vec<u8>, AllocError>
    ensures { IfOk result (λ bytes. bytes.items ≡ chain_spelling chain.now) }
{
    let mut out = Vec::with_capacity(alloc, chain.byte_count())?;
    chain.append_to(&mut out)?;
    Ok(out)
}
