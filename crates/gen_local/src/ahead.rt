//! Verifies statements of logs side by side, ahead of their checks.
//!
//! No result depends on this: the store keeps each answer, and a kept answer is not computed again.
ghost use Rattle.gen_chain.specs.Store.{Serves, KeepsAll};

use crate::opening::{Opened, Opening};
use gen_chain::{Signing, Statement, VerifyStore};
use gen_log::Entry;
use gen_net::Header;
use sha_lanes::LANES;
use std::alloc::{AllocError, Global};

/// Returns the last signer's statement and signature in a SIGN or RECV entry, if it has a signer and no answer is kept.
/// The signatures of the signers before stand in chains that were received earlier, in the logs of generals that follow.
fn unkept_signing<'a>(entry: &'a Entry, store: &VerifyStore) -> Option<Signing<'a>> {
    let signing = match entry {
        Entry::Sign {
            order,
            path,
            signature,
        } => Signing {
            signer: path.last()?,
            statement: Statement {
                order: *order,
                path: *path,
            },
            signature,
        },
        Entry::Recv { from: _, chain } => {
            let last = chain.signers().last()?;
            Signing {
                signer: last.general,
                statement: Statement {
                    order: chain.order(),
                    path: chain.path(),
                },
                signature: &last.signature,
            }
        }
        _ => return None,
    };
    if store.keeps(&signing) {
        return None;
    }
    Some(signing)
}

/// Returns the first SIGN of an opened log, if there is a log and it has a SIGN.
fn first_sign(opened: &Opened) -> Option<&Entry> {
    match &opened.opening {
        Opening::Own(log) => log
            .entries()
            .iter()
            .find(|entry| matches!(entry, Entry::Sign { .. })),
        _ => None,
    }
}

/// Verifies the signatures of the first SIGNs of opened logs that have no kept answer, up to `LANES` of them.
///
/// # Errors
///
/// `AllocError` where memory is refused. Then the store keeps what was verified before.
pub fn verify_signs(
    alloc: Global,
    header: &Header,
    opened: &[Opened],
    store: &mut VerifyStore,
) -> Result<(), AllocError>
    requires { Serves header.now store.old }
    ensures grows { KeepsAll store.old store.new }
    ensures serves { Serves header.now store.new }
{
    let kept = &*store;
    let signings: Vec<Signing<'_>> = opened
        .iter()
        .filter_map(|one| first_sign(one).and_then(|sign| unkept_signing(sign, kept)))
        .take(LANES)
        .collect(alloc)?;
    store.verify_lanes(header, signings.as_slice())
}

/// Verifies up to `LANES` signatures side by side: those of the last signers of the first entry and of the next entries
/// without a kept answer. It does nothing if the first entry has no signer or its answer is kept. It does nothing
/// either if there are fewer such entries than half of the lanes.
///
/// # Errors
///
/// `AllocError` where memory is refused. Then the store keeps what was verified before.
pub fn verify_next(
    alloc: Global,
    header: &Header,
    entries: &[Entry],
    store: &mut VerifyStore,
) -> Result<(), AllocError>
    requires { Serves header.now store.old }
    ensures grows { KeepsAll store.old store.new }
    ensures serves { Serves header.now store.new }
{
    let Some((first, _)) = entries.split_first() else {
        return Ok(());
    };
    if unkept_signing(first, store).is_none() {
        return Ok(());
    }
    let kept = &*store;
    let signings: Vec<Signing<'_>> = entries
        .iter()
        .filter_map(|entry| unkept_signing(entry, kept))
        .take(LANES)
        .collect(alloc)?;
    if signings.len() < LANES / 2 {
        return Ok(());
    }
    store.verify_lanes(header, signings.as_slice())
}
