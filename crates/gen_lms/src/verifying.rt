//! Whether a signature verifies (RFC 8554, section 5.4.2).
ghost use Rattle.std.specs.Prelude.{◌≡◌, ◌↔◌, ◌<◌, IsTrue, IsOk, IfErr, length};
ghost use Rattle.gen_lms.specs.Heights.{leaves_of};
ghost use Rattle.gen_lms.specs.Signatures.{IsRefused, Verifies, implied_root, number_in, signature_length};

use crate::faults::Refusal;
use crate::nodes::root_over;
use crate::public_keys::{PublicKey, u32_of};
use crate::sizes::{NUMBER_BYTES, signature_bytes};
use gen_lmots::sizes::{OTS_BYTES, TYPE_CODE};
use gen_lmots::{KeyPlace, candidate};

// Returns whether two hashes are equal.
fn same_hash(left: &[u8; 32], right: &[u8; 32]) -> bool
    ensures { IsTrue result ↔ (left.now ≡ right.now) }
{
    left == right
}

// Returns the root that a signature stands for, whose length is right and whose leaf the tree has.
fn implied_root(key: &PublicKey, message: &[u8], signature: &[u8]) -> [u8; 32]
    requires whole { length signature.now ≡ signature_length key.now.height }
    requires below { number_in signature.now < leaves_of key.now.height }
    ensures { result ≡ implied_root key.now.identifier key.now.height message.now signature.now }
{
    let (number, behind) = signature.split_at(NUMBER_BYTES);
    let (one_time, behind) = behind.split_at(OTS_BYTES);
    let (_, path) = behind.split_at(NUMBER_BYTES);
    let place = KeyPlace {
        identifier: key.identifier,
        number: u32_of(number),
    };
    let one_time_key = candidate(&place, one_time, message);
    root_over(
        &key.identifier,
        key.height,
        place.number,
        &one_time_key,
        path,
    )
}

/// Verifies a signature of a message under a public key.
///
/// # Errors
///
/// `Refusal` says why the signature does not verify.
pub fn verify(key: &PublicKey, message: &[u8], signature: &[u8]) -> Result<(), Refusal>
    ensures ok { IsOk result ↔ Verifies key.now message.now signature.now }
    ensures err { IfErr result (λ refusal. IsRefused refusal key.now message.now signature.now) }
{
    if signature.len() != signature_bytes(key.height) {
        return Err(Refusal::WrongLength);
    }
    let (number, behind) = signature.split_at(NUMBER_BYTES);
    let (one_time, behind) = behind.split_at(OTS_BYTES);
    let (one_time_type, _) = one_time.split_at(NUMBER_BYTES);
    let (tree_type, _) = behind.split_at(NUMBER_BYTES);
    if u32_of(one_time_type) != TYPE_CODE {
        return Err(Refusal::WrongOneTimeType);
    }
    if u32_of(tree_type) != key.height.type_code() {
        return Err(Refusal::WrongTreeType);
    }
    if u32_of(number) >= key.height.leaves() {
        return Err(Refusal::NoSuchLeaf);
    }
    if !same_hash(&implied_root(key, message, signature), &key.root) {
        return Err(Refusal::WrongRoot);
    }
    Ok(())
}
