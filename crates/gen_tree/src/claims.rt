//! Signatures that are verified side by side.
ghost use Rattle.std.specs.Prelude.{◌≡◌, ◌↔◌, ℕ, ◌<◌, ◌≤◌, IsTrue, [], false, length, map, slice_index_or, take};
ghost use Rattle.gen_ots.specs.SideBySide.{signed_value};
ghost use Rattle.gen_ots.specs.Signatures.{signed_leaf_value};
ghost use Rattle.gen_ots.specs.Sizes.{ots_length};
ghost use Rattle.gen_tree.specs.Claims.{claimed_value, Stands};
ghost use Rattle.gen_tree.specs.declared.claims.SignatureClaim.{SignatureClaim};

use crate::signatures::{Signature, root_above, same_bytes, verify};
use gen_ots::{SignedDigest, images_of_lanes};
use gen_types::TreeHeight;
use sha_lanes::LANES;

/// The claim that a signature of a digest by a leaf stands under a root: the question that `verify`
/// answers.
#[derive(Clone, Copy)]
pub struct SignatureClaim<'a> {
    /// The root.
    pub root: &'a [u8; 32],
    /// The height of the tree.
    pub height: TreeHeight,
    /// The number of the leaf. The tree may have no such leaf.
    pub leaf: u8,
    /// The digest.
    pub digest: [u8; 32],
    /// The signature. It may be any bytes of a signature's length.
    pub signature: &'a Signature,
}

impl<'a> SignatureClaim<'a> {
    /// Returns the digest and its one-time signature.
    fn signed(&self) -> SignedDigest<'a>
        ensures { signed_value result ≡ claimed_value self.now }
    {
        let signature = self.signature;
        SignedDigest {
            signature: &signature.pairs,
            digest: self.digest,
        }
    }

    /// Returns whether the claim is true, given the leaf value that its signature stands for.
    fn stands(&self, value: &[u8; 32]) -> bool
        requires { value.now ≡ claimed_value self.now }
        ensures { IsTrue result ↔ Stands self.now }
    {
        let (root, signature) = (self.root, self.signature);
        signature.height() == self.height
            && self.leaf < self.height.leaves()
            && same_bytes(&root_above(value, self.height, self.leaf, signature), root)
    }
}

/// Returns for the claim in each lane whether it is true, as `verify` does for one. The one-time signatures
/// are hashed side by side. With vectors of 256 bits this takes about twice as long as hashing one of them.
pub fn verify_lanes(claims: &[SignatureClaim<'_>; LANES]) -> [bool; LANES]
    ensures { (j : ℕ) → j < LANES → (other : SignatureClaim)
        → IsTrue (slice_index_or result j false) ↔ Stands (slice_index_or claims.now j other) }
{
    let mut signed = [claims[0].signed(); LANES];
    'digests: for lane in 0..LANES {
        signed[lane] = claims[lane].signed();
    }
    let values = images_of_lanes(&signed);
    let mut answers = [false; LANES];
    'lanes: for lane in 0..LANES {
        answers[lane] = claims[lane].stands(&values[lane]);
    }
    answers
}

/// Returns for each of at most `LANES` claims whether it is true, as `verify` does for one. What the result
/// has behind these answers says nothing.
///
/// If there are claims for at least half of the lanes, they are verified side by side, and the lanes that
/// are left over verify the first claim again. Fewer claims are verified one after another.
pub fn verify_claims(claims: &[SignatureClaim<'_>]) -> [bool; LANES]
    requires { length claims.now ≤ LANES }
    ensures { (j : ℕ) → j < length claims.now → (other : SignatureClaim)
        → IsTrue (slice_index_or result j false) ↔ Stands (slice_index_or claims.now j other) }
{
    if claims.len() < LANES / 2 {
        let mut answers = [false; LANES];
        'turns: for place in 0..claims.len() {
            let claim = &claims[place];
            let (root, signature) = (claim.root, claim.signature);
            answers[place] = verify(root, claim.height, claim.leaf, &claim.digest, signature);
        }
        return answers;
    }
    let mut lanes = [claims[0]; LANES];
    'claims: for place in 0..claims.len() {
        lanes[place] = claims[place];
    }
    verify_lanes(&lanes)
}
