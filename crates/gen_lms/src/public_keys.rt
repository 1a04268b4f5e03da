//! Public keys.
ghost use Rattle.std.specs.Prelude.{◌≡◌, ◌++◌, length, IfErr, IfOk, OnErr, OnOk};
ghost use Rattle.gen_lms.specs.PublicKeys.{IsKeyFault, key_bytes, u32_of};

use crate::faults::KeyFault;
use crate::heights::LmsHeight;
use crate::sizes::{KEY_BYTES, NUMBER_BYTES};
use gen_lmots::append;
use gen_lmots::sizes::{IDENTIFIER_BYTES, TYPE_CODE};
use std::alloc::AllocError;

/// The public key of a tree.
#[derive(Clone, Copy, Debug)]
pub struct PublicKey {
    /// The height of the tree.
    pub height: LmsHeight,
    /// The identifier of the tree: I.
    pub identifier: [u8; 16],
    /// The root of the tree: T[1].
    pub root: [u8; 32],
}

// Returns the number that four bytes make, high byte first.
pub(crate) fn u32_of(bytes: &[u8]) -> u32
    requires { length bytes.now ≡ 4 }
    ensures { result ≡ u32_of bytes.now }
{
    let mut four = [0; NUMBER_BYTES];
    four.copy_from_slice(bytes);
    u32::from_be_bytes(four)
}

impl PublicKey {
    /// Returns the public key that these bytes are.
    ///
    /// # Errors
    ///
    /// `KeyFault` says what is wrong with bytes that are no public key.
    pub fn read(bytes: &[u8]) -> Result<PublicKey, KeyFault>
        ensures ok { IfOk result (λ key. key_bytes key ≡ bytes.now) }
        ensures err { IfErr result (λ fault. IsKeyFault fault bytes.now) }
    {
        if bytes.len() != KEY_BYTES {
            return Err(KeyFault::KeyLength);
        }
        let (tree_type, behind) = bytes.split_at(NUMBER_BYTES);
        let Some(height) = LmsHeight::of_type_code(u32_of(tree_type)) else {
            return Err(KeyFault::KeyTreeType);
        };
        let (one_time_type, behind) = behind.split_at(NUMBER_BYTES);
        if u32_of(one_time_type) != TYPE_CODE {
            return Err(KeyFault::KeyOneTimeType);
        }
        let (front, back) = behind.split_at(IDENTIFIER_BYTES);
        let mut identifier = [0; 16];
        identifier.copy_from_slice(front);
        let mut root = [0; 32];
        root.copy_from_slice(back);
        Ok(PublicKey {
            height,
            identifier,
            root,
        })
    }

    /// Appends the 56 bytes of the public key.
    ///
    /// # Errors
    ///
    /// `AllocError` if memory is refused: then the vector is unchanged.
    pub fn append_to(&self, out: &mut Vec<u8>) -> Result<(), AllocError>
        ensures ok { OnOk result (out.new.items ≡ out.old.items ++ key_bytes self.now) }
        ensures err { OnErr result (out.new.items ≡ out.old.items) }
    {
        out.reserve(KEY_BYTES)?;
        append(out, &self.height.type_code().to_be_bytes());
        append(out, &TYPE_CODE.to_be_bytes());
        append(out, &self.identifier);
        append(out, &self.root);
        Ok(())
    }
}
