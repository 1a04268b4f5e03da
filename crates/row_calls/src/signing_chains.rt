//! Calls of what is signed, and of chains.
ghost use Rattle.std.specs.Prelude.{◌≡◌, IfOk};

use crate::names::Refused;
use crate::rows::{Row, header_in};
use crate::signing_keys::signature_of;
use crate::texts::Answer;
use gen_chain::{
    ChainRoom, HeadText, SignedChain, Statement, begin_chain, extend_chain, has_signed,
    head_digest, head_text, leaf_of_head, leaf_of_order, read_chain, statement_digest,
    statement_text, write_chain,
};
use gen_net::Header;
use gen_ots::SigRoom;
use gen_tree::{KeyRing, LeafKey, general_seed};
use gen_types::{GeneralNo, OrderNo, TreeHeight};
use std::alloc::Global;

/// Returns the statement of the order and the path that are the next words.
pub(crate) fn statement_of(row: &mut Row<'_>) -> Result<Statement, Refused> {
    let order = row.order()?;
    let path = row.path()?;
    Ok(Statement { order, path })
}

/// Tells a text that is signed, its hash and its leaf.
fn tell_text(text: &[u8], digest: &[u8; 32], leaf: u8, answer: &mut Answer) {
    answer.word("text");
    answer.hex(text);
    answer.word("hash");
    answer.hex(digest);
    answer.field("leaf", leaf);
}

/// Tells what is signed of a statement.
pub(crate) fn tell_statement(
    alloc: Global,
    header: &Header,
    mut row: Row<'_>,
    answer: &mut Answer,
) -> Result<(), Refused> {
    let statement = statement_of(&mut row)?;
    let text = statement_text(alloc, header, &statement)?;
    let digest = statement_digest(header, &statement);
    let leaf = leaf_of_order(header, statement.order);
    tell_text(text.as_slice(), &digest, leaf, answer);
    Ok(())
}

/// Tells what is signed of the head of a log.
pub(crate) fn tell_head(
    alloc: Global,
    header: &Header,
    mut row: Row<'_>,
    answer: &mut Answer,
) -> Result<(), Refused> {
    let general = row.general()?;
    let entries = row.number()? as u64;
    let last_link = row.hash()?;
    let head = HeadText {
        general,
        entries,
        last_link,
    };
    let text = head_text(alloc, header, &head)?;
    let digest = head_digest(header, &head);
    tell_text(text.as_slice(), &digest, leaf_of_head(header), answer);
    Ok(())
}

/// Tells the chain in front of bytes, or its fault.
pub(crate) fn tell_chain(
    alloc: Global,
    mut row: Row<'_>,
    answer: &mut Answer,
) -> Result<(), Refused> {
    let height = match row.byte()? {
        1 => TreeHeight::Four,
        2 => TreeHeight::Six,
        _ => return Err(Refused),
    };
    let bytes = row.rest()?;
    match read_chain(alloc, height, bytes) {
        Ok((chain, taken)) => tell_read(alloc, &chain, bytes, taken, answer),
        Err(error) => Ok(answer.show(error)),
    }
}

/// Tells the order and the path of a chain that is the first of these bytes, and how many are behind it.
fn tell_read(
    alloc: Global,
    chain: &SignedChain,
    bytes: &[u8],
    taken: usize,
    answer: &mut Answer,
) -> Result<(), Refused> {
    let again = write_chain(alloc, chain)?;
    if again.len() != taken || !bytes.starts_with(again.as_slice()) {
        answer.word("written otherwise");
        return Ok(());
    }
    answer.statement(chain.order(), &chain.path());
    answer.field("behind", bytes.len().saturating_sub(taken));
    Ok(())
}

/// Tells whether the chain in front of bytes verifies, or its fault.
pub(crate) fn tell_verified(
    alloc: Global,
    header: &Header,
    row: Row<'_>,
    answer: &mut Answer,
) -> Result<(), Refused> {
    tell_whether(alloc, header, row.rest()?, answer);
    Ok(())
}

/// Tells the same of bytes.
fn tell_whether(alloc: Global, header: &Header, bytes: &[u8], answer: &mut Answer) {
    match read_chain(alloc, header.height(), bytes) {
        Ok((chain, _)) => answer.yes(gen_chain::chain_verifies(header, &chain)),
        Err(error) => answer.show(error),
    }
}

/// Tells whether a general signed a statement with a signature.
pub(crate) fn tell_signed(
    alloc: Global,
    header: &Header,
    mut row: Row<'_>,
    answer: &mut Answer,
) -> Result<(), Refused> {
    let general = row.general()?;
    let statement = statement_of(&mut row)?;
    let signature = signature_of(alloc, row)?;
    answer.yes(has_signed(header, general, &statement, &signature));
    Ok(())
}

/// Tells the length and the SHA-256 of the chain that the keys of a master seed sign, and whether it
/// verifies once it was read again.
pub(crate) fn tell_made(
    alloc: Global,
    mut row: Row<'_>,
    answer: &mut Answer,
) -> Result<(), Refused> {
    let master = row.hash()?;
    let piece = row.piece()?;
    let statement = statement_of(&mut row)?;
    let header = header_in(alloc, piece)?;
    tell_chain_of(alloc, &master, &header, &statement, answer)
}

/// Tells the same under a header.
fn tell_chain_of(
    alloc: Global,
    master: &[u8; 32],
    header: &Header,
    statement: &Statement,
    answer: &mut Answer,
) -> Result<(), Refused> {
    let bytes = made(alloc, master, header, statement)?;
    answer.digest(bytes.as_slice());
    answer.word("verifies");
    tell_whether(alloc, header, bytes.as_slice(), answer);
    Ok(())
}

/// Returns the bytes of the chain of a statement's order and path that the keys of a master seed sign.
fn made(
    alloc: Global,
    master: &[u8; 32],
    header: &Header,
    statement: &Statement,
) -> Result<Vec<u8>, Refused> {
    let generals = statement.path.generals();
    let (first, others) = generals.split_first().ok_or(Refused)?;
    if *first != GeneralNo::commander() {
        return Err(Refused);
    }
    let mut chain = begun(alloc, master, header, statement.order)?;
    for general in others {
        chain = longer(alloc, master, header, *general, &chain)?;
    }
    Ok(write_chain(alloc, &chain)?)
}

/// Returns the key of a leaf of a general's ring under a master seed.
fn key_of(
    alloc: Global,
    master: &[u8; 32],
    general: GeneralNo,
    height: TreeHeight,
    leaf: u8,
) -> Result<LeafKey, Refused>
    ensures height { IfOk result (λ key. key.height ≡ height) }
    ensures leaf { IfOk result (λ key. key.leaf ≡ leaf) }
{
    let seed = general_seed(master, general);
    let mut ring = KeyRing::from_seed(alloc, &seed, height)?;
    let key = ring.take(leaf);
    let _leaves = ring.close();
    match key {
        Some(key) => Ok(key),
        None => Err(Refused),
    }
}

/// Returns the chain of an order that the commander alone signs.
fn begun(
    alloc: Global,
    master: &[u8; 32],
    header: &Header,
    order: OrderNo,
) -> Result<SignedChain, Refused> {
    if order.get() > 14 {
        return Err(Refused);
    }
    let (height, leaf) = (header.height(), leaf_of_order(header, order));
    let room = ChainRoom::new(alloc, 1)?;
    let signature = SigRoom::new(alloc, height)?;
    let key = key_of(alloc, master, GeneralNo::commander(), height, leaf)?;
    Ok(begin_chain(header, order, room, signature, key))
}

/// Returns a chain with one signer more.
fn longer(
    alloc: Global,
    master: &[u8; 32],
    header: &Header,
    me: GeneralNo,
    chain: &SignedChain,
) -> Result<SignedChain, Refused> {
    if me.get() >= header.net().generals() || chain.path().contains(me) {
        return Err(Refused);
    }
    let order = chain.order();
    if chain.signers().len() >= 16 || chain.height() != header.height() {
        return Err(Refused);
    }
    let (height, leaf) = (header.height(), leaf_of_order(header, order));
    let room = ChainRoom::new(alloc, 16)?;
    let signature = SigRoom::new(alloc, height)?;
    let key = key_of(alloc, master, me, height, leaf)?;
    Ok(extend_chain(header, me, chain, room, signature, key))
}
