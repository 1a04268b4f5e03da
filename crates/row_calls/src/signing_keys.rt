//! Calls of keys and signatures.
use crate::names::Refused;
use crate::rows::Row;
use crate::texts::Answer;
use gen_ots::{SigRoom, leaf_values};
use gen_tree::sizes::signature_bytes;
use gen_tree::{KeyRing, Signature, general_seed};
use gen_types::TreeHeight;
use sha_lanes::LANES;
use std::alloc::{AllocError, Global};

/// Returns the height that is the next word: 4 or 6.
fn height_of(row: &mut Row<'_>) -> Result<TreeHeight, Refused> {
    match row.byte()? {
        4 => Ok(TreeHeight::Four),
        6 => Ok(TreeHeight::Six),
        _ => Err(Refused),
    }
}

/// Returns the signature that is the rest of the row, of the version that its length says.
pub(crate) fn signature_of(alloc: Global, row: Row<'_>) -> Result<Signature, Refused> {
    let bytes = row.rest()?;
    let height = if bytes.len() == signature_bytes(TreeHeight::Four) {
        TreeHeight::Four
    } else {
        TreeHeight::Six
    };
    if bytes.len() != signature_bytes(height) {
        return Err(Refused);
    }
    Ok(Signature::read(SigRoom::new(alloc, height)?, bytes))
}

/// Tells a general's seed under a master seed.
pub(crate) fn tell_seed(mut row: Row<'_>, answer: &mut Answer) -> Result<(), Refused> {
    let master = row.hash()?;
    answer.hex(&general_seed(&master, row.general()?));
    Ok(())
}

/// Tells the root of a seed's ring, of which no leaf is taken.
pub(crate) fn tell_root(
    alloc: Global,
    mut row: Row<'_>,
    answer: &mut Answer,
) -> Result<(), Refused> {
    let seed = row.hash()?;
    let height = height_of(&mut row)?;
    let ring = KeyRing::from_seed(alloc, &seed, height)?;
    let (root, found) = (ring.root(), ring.height());
    let leaves = ring.close();
    if found == height && leaves.is_empty() {
        answer.hex(&root);
    } else {
        answer.word("another ring");
    }
    Ok(())
}

/// Tells the value of a leaf of a seed's tree, which is hashed beside others of its tree.
pub(crate) fn tell_leaf_value(mut row: Row<'_>, answer: &mut Answer) -> Result<(), Refused> {
    let seed = row.hash()?;
    let height = height_of(&mut row)?;
    let leaf = row.byte()?;
    let lane = leaf % LANES as u8;
    let first = leaf - lane;
    if first.checked_add(LANES as u8).ok_or(Refused)? > height.leaves() {
        return Err(Refused);
    }
    let values = leaf_values(&seed, height, first);
    answer.hex(values.get(usize::from(lane)).ok_or(Refused)?);
    Ok(())
}

/// Tells the length and the SHA-256 of a signature by a leaf, or `no leaf`.
pub(crate) fn tell_signature(
    alloc: Global,
    mut row: Row<'_>,
    answer: &mut Answer,
) -> Result<(), Refused> {
    let seed = row.hash()?;
    let height = height_of(&mut row)?;
    let leaf = row.byte()?;
    let digest = row.hash()?;
    let room = SigRoom::new(alloc, height)?;
    let mut ring = KeyRing::from_seed(alloc, &seed, height)?;
    let key = ring.take(leaf);
    let _leaves = ring.close();
    match key {
        Some(key) => tell_signed(alloc, &key.sign(room, &digest), answer),
        None => Ok(answer.word("no leaf")),
    }
}

/// Tells the length and the SHA-256 of the bytes of a signature.
fn tell_signed(alloc: Global, signature: &Signature, answer: &mut Answer) -> Result<(), Refused> {
    answer.digest(written_signature(alloc, signature)?.as_slice());
    Ok(())
}

/// Returns the bytes of a signature.
pub(crate) fn written_signature(
    alloc: Global,
    signature: &Signature,
) -> Result<Vec<u8>, AllocError> {
    let mut bytes = Vec::new(alloc);
    signature.append_to(&mut bytes)?;
    Ok(bytes)
}

/// Tells whether a signature stands under a root and a leaf.
pub(crate) fn tell_verified(
    alloc: Global,
    mut row: Row<'_>,
    answer: &mut Answer,
) -> Result<(), Refused> {
    let root = row.hash()?;
    let height = height_of(&mut row)?;
    let leaf = row.byte()?;
    let digest = row.hash()?;
    let signature = signature_of(alloc, row)?;
    answer.yes(gen_tree::verify(&root, height, leaf, &digest, &signature));
    Ok(())
}

/// Tells the numbers of the leaves under which a signature stands.
pub(crate) fn tell_leaves(
    alloc: Global,
    mut row: Row<'_>,
    answer: &mut Answer,
) -> Result<(), Refused> {
    let root = row.hash()?;
    let height = height_of(&mut row)?;
    let digest = row.hash()?;
    let signature = signature_of(alloc, row)?;
    for leaf in 0..=u8::MAX {
        if gen_tree::verify(&root, height, leaf, &digest, &signature) {
            answer.item(leaf);
        }
    }
    answer.end_list();
    Ok(())
}
