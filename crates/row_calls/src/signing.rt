//! Calls of keys, chains and logs.
use crate::names::Refused;
use crate::rows::Row;
use crate::texts::Answer;
use crate::{signing_chains, signing_keys, signing_logs};
use gen_net::Header;
use std::alloc::Global;

/// Answers a call of this module, and returns whether it is one.
pub(crate) fn tell(
    alloc: Global,
    call: &str,
    row: Row<'_>,
    answer: &mut Answer,
) -> Result<bool, Refused> {
    match call {
        "seed" => signing_keys::tell_seed(row, answer)?,
        "root" => signing_keys::tell_root(alloc, row, answer)?,
        "leaf_value" => signing_keys::tell_leaf_value(row, answer)?,
        "signature" => signing_keys::tell_signature(alloc, row, answer)?,
        "verify" => signing_keys::tell_verified(alloc, row, answer)?,
        "leaves" => signing_keys::tell_leaves(alloc, row, answer)?,
        "chain" => signing_chains::tell_chain(alloc, row, answer)?,
        "chain_of" => signing_chains::tell_made(alloc, row, answer)?,
        _ => return Ok(false),
    }
    Ok(true)
}

/// Answers a call of this module on a header, and returns whether it is one.
pub(crate) fn tell_under(
    alloc: Global,
    call: &str,
    header: &Header,
    row: Row<'_>,
    answer: &mut Answer,
) -> Result<bool, Refused> {
    match call {
        "statement" => signing_chains::tell_statement(alloc, header, row, answer)?,
        "head" => signing_chains::tell_head(alloc, header, row, answer)?,
        "chain_verifies" => signing_chains::tell_verified(alloc, header, row, answer)?,
        "signed" => signing_chains::tell_signed(alloc, header, row, answer)?,
        "log" => signing_logs::tell_log(alloc, header, row, answer)?,
        "head_verifies" => signing_logs::tell_head(alloc, header, row, answer)?,
        "links" => signing_logs::tell_links(alloc, header, row, answer)?,
        "lengths" => signing_logs::tell_lengths(alloc, header, row, answer)?,
        "has_sign" => signing_logs::tell_sign(alloc, header, row, answer)?,
        _ => return Ok(false),
    }
    Ok(true)
}
