//! One-time signatures, and the room into which they are written.
ghost use Rattle.std.specs.Prelude.{◌≡◌, ◌<◌, ◌≤◌, ◌+◌, ◌*◌, ◌++◌, [], ℕ, length, vec_len, vec_capacity, IfOk};
ghost use Rattle.std.specs.Cmp.{partial_equiv_from_equiv};
ghost use Rattle.std.specs.Cmp.Lexicographic.{pointwise};
ghost use Rattle.std.specs.Bool.{nat_eq};
ghost use Rattle.std.proofs.lemmas.Cmp.{nat_list_eq_equiv};
ghost use Rattle.gen_ots.specs.Signatures.{other_at, pairs_up_to, shown_at, signed_leaf_value};

use crate::hashing::{LEAF_PREFIX, are_ones, chosen_in_lanes, images_in_lanes};
use crate::sharing::HeldBytes;
use crate::sizes::{DIGEST_BITS, HASH_BYTES, OTS_BYTES, PAIR_BYTES};
use gen_types::TreeHeight;
use sha_lanes::{LANES, OneHasher, Schedules, to_words};
use std::alloc::{AllocError, Global};
use std::marker::Model;

/// Room for one signature by a key of a tree of some height. It is all the memory that is needed to make
/// or read one. A contract sees the height.
#[derive(Debug, Drop)]
pub struct SigRoom {
    pub(crate) bytes: Vec<u8>,
    height: TreeHeight,
}

impl Model for SigRoom {
    ghost use Rattle.std.specs.Prelude.{◌≡◌, ◌≤◌, [], vec_capacity};
    ghost use Rattle.gen_types.specs.declared.heights.TreeHeight.{TreeHeight};
    ghost use Rattle.gen_ots.specs.Sizes.{ots_length};

    ghost Value = { TreeHeight };

    ghost view = { λ r. r.height };

    ghost invariant = { λ r. (r.bytes.items ≡ []) × (ots_length ≤ vec_capacity r.bytes) };
}

impl SigRoom {
    /// Returns room for a signature by a key of a tree of this height.
    ///
    /// # Errors
    ///
    /// `AllocError` if memory is refused.
    pub fn new(alloc: Global, height: TreeHeight) -> Result<SigRoom, AllocError>
        ensures { IfOk result (λ room. room ≡ height) }
    {
        let bytes = Vec::with_capacity(alloc, OTS_BYTES)?;
        Ok(SigRoom { bytes, height })
    }

    /// Returns the height of the trees for whose keys the room is.
    pub fn height(&self) -> TreeHeight
        ensures { result ≡ self.now }
    {
        self.height
    }
}

/// A one-time signature. For each bit of a digest, from the most significant bit of byte 0 on, it has the
/// secret that the bit names and the image of the other secret.
///
/// It may be any 16,384 bytes: `image_of` says which leaf value they stand for. A contract sees the list
/// of the bytes.
#[derive(Debug, Drop)]
pub struct OtsSig {
    bytes: HeldBytes,
}

impl Model for OtsSig {
    ghost use Rattle.std.specs.Prelude.{◌≡◌, List, ℕ, length};
    ghost use Rattle.gen_ots.specs.Sharing.{bytes_of};
    ghost use Rattle.gen_ots.specs.Sizes.{ots_length};

    ghost Value = { List ℕ };

    ghost view = { λ s. bytes_of s.bytes };

    ghost invariant = { λ s. length (bytes_of s.bytes) ≡ ots_length };
}

impl OtsSig {
    /// Returns the signature that owns these bytes, of which there must be `OTS_BYTES`.
    pub(crate) fn owning(bytes: Vec<u8>) -> OtsSig
        requires { length bytes.items ≡ OTS_BYTES }
        ensures { result ≡ bytes.items }
    {
        OtsSig {
            bytes: HeldBytes::Owned(bytes),
        }
    }

    /// Returns the signature with these bytes, of which there must be `OTS_BYTES`, written into the room.
    pub fn read(room: SigRoom, pairs: &[u8]) -> OtsSig
        requires { length pairs.now ≡ OTS_BYTES }
        ensures { result ≡ pairs.now }
    {
        let mut bytes = room.bytes;
        bytes.extend_from_slice(pairs).unwrap();
        OtsSig::owning(bytes)
    }

    /// Returns the signature with these bytes, of which there must be `OTS_BYTES`, in memory that several
    /// owners can share.
    ///
    /// # Errors
    ///
    /// `AllocError` if memory is refused.
    pub fn shared(alloc: Global, pairs: &[u8]) -> Result<OtsSig, AllocError>
        requires { length pairs.now ≡ OTS_BYTES }
        ensures { IfOk result (λ signature. signature ≡ pairs.now) }
    {
        let bytes = HeldBytes::shared(alloc, pairs)?;
        Ok(OtsSig { bytes })
    }

    /// Returns the signature for one owner more. Bytes that can be shared are not copied.
    ///
    /// # Errors
    ///
    /// `AllocError` if memory is refused.
    pub fn share(&self, alloc: Global) -> Result<OtsSig, AllocError>
        ensures { IfOk result (λ signature. signature ≡ self.now) }
    {
        let bytes = self.bytes.share(alloc)?;
        Ok(OtsSig { bytes })
    }

    /// Returns a copy of the signature, written into the room.
    pub fn copy(&self, room: SigRoom) -> OtsSig
        ensures { result ≡ self.now }
    {
        OtsSig::read(room, self.as_bytes())
    }

    /// Returns the bytes of the signature.
    pub fn as_bytes(&self) -> &[u8]
        ensures value { result.now ≡ self.now }
        ensures width { length result.now ≡ OTS_BYTES }
    {
        self.bytes.as_slice()
    }
}

impl PartialEq for OtsSig {
    ghost eq = { pointwise nat_eq };

    ghost laws = { partial_equiv_from_equiv nat_list_eq_equiv };

    fn eq(&self, other: &OtsSig) -> bool {
        self.as_bytes() == other.as_bytes()
    }
}

impl Eq for OtsSig {
    ghost laws = { nat_list_eq_equiv };
}

/// Returns the leaf value that a signature of a digest stands for. It is the hash of both images of each
/// bit, side 0 before side 1: that of the secret that the signature shows, and the image that it gives.
pub fn image_of(signature: &OtsSig, digest: &[u8; 32]) -> [u8; 32]
    ensures { result ≡ signed_leaf_value signature.now digest.now }
{
    let pairs = signature.as_bytes();
    let mut schedules = Schedules::new();
    let mut hasher = OneHasher::new(LEAF_PREFIX);
    // Each turn takes one bit for each lane, so that the secrets of these bits are hashed side by side.
    'turns: for turn in 0..DIGEST_BITS / LANES {
        let bit = LANES * turn;
        let mut secrets = [[0; HASH_BYTES]; LANES];
        let mut others = [[0; HASH_BYTES]; LANES];
        'lanes: for j in 0..LANES {
            let (secret, image) = pair_at(pairs, bit + j);
            secrets[j] = secret;
            others[j] = image;
        }
        let images = images_in_lanes(&mut schedules, &to_words(&secrets));
        let others = to_words(&others);
        let ones = are_ones(digest, bit);
        let zeroth = chosen_in_lanes(&ones, &images, &others);
        let first = chosen_in_lanes(&ones, &others, &images);
        hasher.update(&zeroth, &first);
    }
    hasher.finalize()
}

// Returns the secret that the pairs show for a bit, and the image that they give for it.
pub(crate) fn pair_at(pairs: &[u8], bit: usize) -> ([u8; 32], [u8; 32])
    requires length { length pairs.now ≡ OTS_BYTES }
    requires bit { bit < DIGEST_BITS }
    ensures secret { result.0 ≡ shown_at pairs.now bit }
    ensures image { result.1 ≡ other_at pairs.now bit }
{
    let shown = PAIR_BYTES * bit;
    let mut secret = [0; HASH_BYTES];
    secret.copy_from_slice(&pairs[shown..shown + HASH_BYTES]);
    let other = shown + HASH_BYTES;
    let mut image = [0; HASH_BYTES];
    image.copy_from_slice(&pairs[other..other + HASH_BYTES]);
    (secret, image)
}

// Appends a secret that is shown, and the image of the other secret. The vector must have room for both.
fn push_pair(bytes: &mut Vec<u8>, shown: &[u8; 32], image: &[u8; 32])
    requires { vec_len bytes.old + PAIR_BYTES ≤ vec_capacity bytes.old }
    ensures items { bytes.new.items ≡ bytes.old.items ++ (shown.now ++ image.now) }
    ensures len { vec_len bytes.new ≡ vec_len bytes.old + PAIR_BYTES }
    ensures capacity { vec_capacity bytes.old ≤ vec_capacity bytes.new }
{
    bytes.extend_from_slice(shown).unwrap();
    bytes.extend_from_slice(image).unwrap();
}

// Appends for each lane, in the order of the lanes, a secret that is shown and the image of the other
// secret. The vector must have room for all of them.
pub(crate) fn push_pairs(bytes: &mut Vec<u8>, shown: &[[u8; 32]; LANES], images: &[[u8; 32]; LANES])
    requires { vec_len bytes.old + PAIR_BYTES * LANES ≤ vec_capacity bytes.old }
    ensures items { bytes.new.items ≡ bytes.old.items ++ pairs_up_to LANES shown.now images.now }
    ensures len { vec_len bytes.new ≡ vec_len bytes.old + PAIR_BYTES * LANES }
    ensures capacity { vec_capacity bytes.old ≤ vec_capacity bytes.new }
{
    'lanes: for j in 0..LANES {
        push_pair(bytes, &shown[j], &images[j]);
    }
}
