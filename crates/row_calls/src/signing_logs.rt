//! Calls of logs.
use crate::names::{Bytes, Refused};
use crate::rows::Row;
use crate::signing_chains::statement_of;
use crate::signing_keys::written_signature;
use crate::texts::Answer;
use gen_log::{Entry, Log, entry_bytes, entry_lengths, last_link, link_at, read_log};
use gen_net::Header;
use gen_types::GeneralNo;
use std::alloc::Global;

/// Tells the run id and the entries of a log, or its fault.
pub(crate) fn tell_log(
    alloc: Global,
    header: &Header,
    row: Row<'_>,
    answer: &mut Answer,
) -> Result<(), Refused> {
    let bytes = row.rest()?;
    match read_log(alloc, header, bytes) {
        Ok(log) => tell_read(alloc, &log, bytes, answer),
        Err(error) => Ok(answer.show(error)),
    }
}

/// Tells what a log says that is read of these bytes.
fn tell_read(alloc: Global, log: &Log, bytes: &[u8], answer: &mut Answer) -> Result<(), Refused> {
    if written(alloc, log)?.as_slice() == bytes {
        tell_entries(log, answer);
    } else {
        answer.word("written otherwise");
    }
    Ok(())
}

/// Tells the run id and the entries of a log.
fn tell_entries(log: &Log, answer: &mut Answer) {
    answer.word("run");
    answer.hex(log.run_id());
    for entry in log.entries() {
        answer.end_line();
        tell_entry(entry, answer);
    }
}

/// Returns the bytes of a log, written entry by entry.
fn written(alloc: Global, log: &Log) -> Result<Bytes, Refused> {
    let mut out = Bytes::new(alloc);
    out.push(log.run_id());
    out.push(&(log.entries().len() as u64).to_be_bytes());
    for entry in log.entries() {
        out.push_written(entry_bytes(alloc, entry));
    }
    out.push_written(written_signature(alloc, log.head()));
    if out.is_refused() {
        return Err(Refused);
    }
    Ok(out)
}

/// Tells an entry in words.
fn tell_entry(entry: &Entry, answer: &mut Answer) {
    match entry {
        Entry::Start { general, own } => {
            answer.field("START general", *general);
            answer.word("order");
            match own {
                Some(order) => answer.show(*order),
                None => answer.word("none"),
            }
        }
        Entry::Sign {
            order,
            path,
            signature: _,
        } => {
            answer.word("SIGN");
            answer.statement(*order, path);
        }
        Entry::Send { to, order, path } => {
            answer.field("SEND to", *to);
            answer.statement(*order, path);
        }
        Entry::Recv { from, chain } => {
            answer.field("RECV from", *from);
            answer.statement(chain.order(), &chain.path());
        }
        Entry::Decide { orders, order } => {
            answer.word("DECIDE set");
            answer.set(orders);
            answer.field("order", *order);
        }
    }
}

/// Tells whether the head of a log verifies as a general's, or the log's fault.
pub(crate) fn tell_head(
    alloc: Global,
    header: &Header,
    mut row: Row<'_>,
    answer: &mut Answer,
) -> Result<(), Refused> {
    let general = row.general()?;
    if general.get() >= header.net().generals() {
        return Err(Refused);
    }
    match read_log(alloc, header, row.rest()?) {
        Ok(log) => answer.yes(gen_log::head_verifies(header, general, &log)),
        Err(error) => answer.show(error),
    }
    Ok(())
}

/// Tells the links over a log as a general's, or the log's fault.
pub(crate) fn tell_links(
    alloc: Global,
    header: &Header,
    mut row: Row<'_>,
    answer: &mut Answer,
) -> Result<(), Refused> {
    let general = row.general()?;
    match read_log(alloc, header, row.rest()?) {
        Ok(log) => tell_all_links(header, general, &log, answer),
        Err(error) => answer.show(error),
    }
    Ok(())
}

/// Tells the links over a log.
fn tell_all_links(header: &Header, general: GeneralNo, log: &Log, answer: &mut Answer) {
    for place in 0..log.entries().len() {
        answer.hex(&link_at(header, general, log, place));
    }
    answer.hex(&last_link(header, general, log));
}

/// Tells how many bytes each entry of a log has, or the log's fault.
pub(crate) fn tell_lengths(
    alloc: Global,
    header: &Header,
    row: Row<'_>,
    answer: &mut Answer,
) -> Result<(), Refused> {
    match read_log(alloc, header, row.rest()?) {
        Ok(log) => tell_numbers(&entry_lengths(alloc, log.entries())?, answer),
        Err(error) => answer.show(error),
    }
    Ok(())
}

/// Tells a list of numbers.
fn tell_numbers(numbers: &[usize], answer: &mut Answer) {
    for number in numbers {
        answer.item(*number);
    }
    answer.end_list();
}

/// Tells whether a log has a SIGN of a statement, or the log's fault.
pub(crate) fn tell_sign(
    alloc: Global,
    header: &Header,
    mut row: Row<'_>,
    answer: &mut Answer,
) -> Result<(), Refused> {
    let statement = statement_of(&mut row)?;
    match read_log(alloc, header, row.rest()?) {
        Ok(log) => answer.yes(gen_log::has_sign(&log, &statement)),
        Err(error) => answer.show(error),
    }
    Ok(())
}
