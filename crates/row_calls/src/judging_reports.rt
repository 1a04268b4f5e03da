//! Reports of exhibits, and texts that generals sign.
use crate::names::Refused;
use crate::rows::Row;
use crate::texts::Answer;
use gen_local::{OwnLog, Reading, Text, departs, local_report};
use gen_log::read_log;
use gen_net::Header;
use std::alloc::Global;

/// Tells what an exhibit says: its fault, that its log is another general's or of another run, or what is found of the log.
pub(crate) fn tell_report(
    alloc: Global,
    header: &Header,
    mut row: Row<'_>,
    answer: &mut Answer,
) -> Result<(), Refused> {
    let general = row.general()?;
    let report = local_report(alloc, header, general, row.rest()?)?;
    match report.reading() {
        Reading::Unreadable(fault) => answer.show(*fault),
        Reading::Foreign => answer.word("foreign"),
        Reading::Own(log) => tell_found(log, answer),
    }
    Ok(())
}

/// Tells what is found of a log, and then each text of it that verifies.
fn tell_found(log: &OwnLog, answer: &mut Answer) {
    let (orders, order) = log.decision();
    answer.word("unsigned");
    tell_place(log.unsigned(), answer);
    answer.word("sealed");
    answer.yes(log.is_sealed());
    answer.word("departs");
    tell_place(log.departure(), answer);
    answer.word("set");
    answer.set(&orders);
    answer.field("decides", order);
    for signed in log.texts() {
        answer.end_line();
        answer.show(signed.signer);
        answer.word("signs");
        tell_text(&signed.text, answer);
    }
}

/// Tells the number of an entry, or `none`.
fn tell_place(entry: Option<usize>, answer: &mut Answer) {
    match entry {
        Some(entry) => answer.show(entry),
        None => answer.word("none"),
    }
}

/// Tells where a log departs, or the fault of bytes that are none.
pub(crate) fn tell_departure(
    alloc: Global,
    header: &Header,
    row: Row<'_>,
    answer: &mut Answer,
) -> Result<(), Refused> {
    match read_log(alloc, header, row.rest()?) {
        Ok(log) => tell_place(departs(header, &log), answer),
        Err(fault) => answer.show(fault),
    }
    Ok(())
}

/// Tells a text that a general signs: an order with its path, or the head of a log with how many entries it has.
pub(crate) fn tell_text(said: &Text, answer: &mut Answer) {
    match said {
        Text::OfStatement(statement) => answer.statement(statement.order, &statement.path),
        Text::OfHead(head) => answer.field("head", head.entries),
    }
}
