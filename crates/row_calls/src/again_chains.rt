//! Entries and chains of a log that are written and read again.
use crate::again_answers::{Answer, Failure};
use crate::again_logs::last_log;
use gen_audit::Bundle;
use gen_chain::{
    HeadText, SignedChain, Statement, head_text, read_chain, statement_text, write_chain,
};
use gen_log::{Entry, Log, entry_bytes};
use gen_net::Header;
use gen_types::GeneralNo;
use std::alloc::{AllocError, Global};

/// Writes a chain, reads it again, and appends the bytes of what was read.
fn put_chain(alloc: Global, given: &mut Vec<u8>, chain: &SignedChain) -> Result<(), Failure> {
    let bytes = write_chain(alloc, chain)?;
    let (read, _length) = read_chain(alloc, chain.height(), bytes.as_slice())?;
    Ok(read.append_to(given)?)
}

/// Appends the text that the last signer of a chain has signed.
fn put_statement(
    alloc: Global,
    given: &mut Vec<u8>,
    header: &Header,
    chain: &SignedChain,
) -> Result<(), AllocError> {
    let statement = Statement {
        order: chain.order(),
        path: chain.path(),
    };
    let text = statement_text(alloc, header, &statement)?;
    given.extend_from_slice(text.as_slice())
}

/// Appends the bytes of an entry. Before them, if it is a RECV, it appends its chain and the text that the
/// chain's last signer has signed.
fn put_entry(
    alloc: Global,
    given: &mut Vec<u8>,
    header: &Header,
    entry: &Entry,
) -> Result<(), Failure> {
    if let Entry::Recv { from: _, chain } = entry {
        put_chain(alloc, given, chain)?;
        put_statement(alloc, given, header, chain)?;
    }
    let bytes = entry_bytes(alloc, entry)?;
    Ok(given.extend_from_slice(bytes.as_slice())?)
}

/// Returns the text of a head with as many entries as a log has. Its general and its link are not those of
/// the log.
fn head_of(alloc: Global, header: &Header, log: &Log) -> Result<Vec<u8>, AllocError> {
    let head = HeadText {
        general: GeneralNo::commander(),
        entries: log.entries().len() as u64,
        last_link: *header.run_id(),
    };
    head_text(alloc, header, &head)
}

/// Returns the text of a head, and behind it what `put_entry` appends for each entry of the log.
fn texts_of(alloc: Global, header: &Header, log: &Log) -> Answer {
    let mut given = head_of(alloc, header, log)?;
    for entry in log.entries() {
        put_entry(alloc, &mut given, header, entry)?;
    }
    Ok(given)
}

/// Calls `read_log` for the last exhibit, `head_text`, `entry_bytes` for each entry, and for each RECV
/// `write_chain`, `read_chain`, `SignedChain::append_to` and `statement_text`. Returns the bytes.
pub(crate) fn call(alloc: Global, bundle: &Bundle) -> Answer {
    let log = last_log(alloc, bundle)?;
    texts_of(alloc, bundle.header(), &log)
}
