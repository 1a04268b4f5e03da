//! Evidence, and what answers it.
ghost use Rattle.gen_convict.specs.Evidence.{IsEvidence, told_of};
ghost use Rattle.gen_convict.specs.Refuting.{IsOwnLogFor};
ghost use Rattle.gen_convict.specs.Told.{told};

use crate::judging_reports::tell_text;
use crate::names::Refused;
use crate::rows::Row;
use crate::signing_keys::written_signature;
use crate::texts::Answer;
use gen_convict::{
    Claim, Evidence, Refutation, RunText, check_evidence, is_own_log, read_evidence, refute,
    write_evidence,
};
use gen_log::{Log, read_log};
use gen_net::Header;
use gen_types::{OrderNo, Path};
use std::alloc::Global;

/// Tells what evidence says and whether it holds, or the fault of bytes that are none.
pub(crate) fn tell_evidence(
    alloc: Global,
    row: Row<'_>,
    answer: &mut Answer,
) -> Result<(), Refused> {
    let bytes = row.rest()?;
    match read_evidence(alloc, bytes) {
        Ok((header, evidence)) => tell_whole(alloc, &header, &evidence, bytes, answer),
        Err(fault) => Ok(answer.show(fault)),
    }
}

/// Tells what evidence says that was read from these bytes, unless it is written otherwise.
fn tell_whole(
    alloc: Global,
    header: &Header,
    evidence: &Evidence,
    bytes: &[u8],
    answer: &mut Answer,
) -> Result<(), Refused>
    requires { IsEvidence header.now (told_of evidence.now) }
{
    let written = write_evidence(alloc, header, evidence)?;
    if written.as_slice() != bytes {
        answer.word("written otherwise");
        return Ok(());
    }
    tell_read(alloc, header, evidence, answer)
}

/// Tells what evidence says, and whether it holds.
fn tell_read(
    alloc: Global,
    header: &Header,
    evidence: &Evidence,
    answer: &mut Answer,
) -> Result<(), Refused> {
    let is_held = holds(alloc, header, evidence)?;
    answer.field("slot", header.slot());
    tell_accusation(evidence, answer);
    answer.end_line();
    answer.word(if is_held { "holds" } else { "fails" });
    Ok(())
}

/// Returns whether evidence holds.
fn holds(alloc: Global, header: &Header, evidence: &Evidence) -> Result<bool, Refused> {
    if evidence.accused.get() >= header.net().generals() {
        return Err(Refused);
    }
    Ok(check_evidence(alloc, header, evidence)?)
}

/// Tells in lines of its own who is accused, and the two parts of the claim.
pub(crate) fn tell_accusation(evidence: &Evidence, answer: &mut Answer) {
    answer.end_line();
    answer.field("accused", evidence.accused);
    answer.field("kind", evidence.claim.kind());
    answer.end_line();
    tell_first(&evidence.claim, answer);
    answer.end_line();
    tell_second(&evidence.claim, answer);
}

/// Tells the first part of a claim: a text, or how many bytes its log has.
fn tell_first(claim: &Claim, answer: &mut Answer) {
    match claim {
        Claim::Texts { first, second: _ } => tell_text(&first.text, answer),
        Claim::Orders { first, .. } => tell_command(*first, answer),
        Claim::Missing { log, .. } => answer.field("log", log.len()),
        Claim::Departing { log, entry: _ } => answer.field("log", log.len()),
        Claim::Across { first, second: _ } => tell_text(&first.text.text, answer),
    }
}

/// Tells the second part of a claim: a text, or at which entry its log departs.
fn tell_second(claim: &Claim, answer: &mut Answer) {
    match claim {
        Claim::Texts { first: _, second } => tell_text(&second.text, answer),
        Claim::Orders { second, .. } => tell_command(*second, answer),
        Claim::Missing { statement, .. } => answer.statement(statement.order, &statement.path),
        Claim::Departing { log: _, entry } => answer.field("entry", *entry),
        Claim::Across { first: _, second } => tell_other(second, answer),
    }
}

/// Tells an order of the commander's.
fn tell_command(order: OrderNo, answer: &mut Answer) {
    answer.statement(order, &Path::commander());
}

/// Tells a text with the run id of its run.
fn tell_other(text: &RunText, answer: &mut Answer) {
    tell_text(&text.text.text, answer);
    answer.word("in run");
    answer.hex(text.header.run_id());
}

/// Tells what a log answers to evidence, where the log is the accused's own of the run of the evidence or of the other one.
pub(crate) fn tell_refuted(
    alloc: Global,
    mut row: Row<'_>,
    answer: &mut Answer,
) -> Result<(), Refused> {
    match read_evidence(alloc, row.piece()?) {
        Ok((header, evidence)) => tell_refuting(alloc, &header, &evidence, row.rest()?, answer),
        Err(_) => Err(Refused),
    }
}

/// Tells what the bytes of a log answer to evidence, whichever of the two runs the log is of.
fn tell_refuting(
    alloc: Global,
    header: &Header,
    evidence: &Evidence,
    bytes: &[u8],
    answer: &mut Answer,
) -> Result<(), Refused> {
    if !holds(alloc, header, evidence)? {
        answer.word("fails");
        return Ok(());
    }
    if tell_by_first(alloc, header, evidence, bytes, answer)? {
        return Ok(());
    }
    if !tell_by_second(alloc, header, evidence, bytes, answer)? {
        answer.word("no own log");
    }
    Ok(())
}

/// Tells what a log of the run of the evidence answers, and returns whether it is the accused's own.
fn tell_by_first(
    alloc: Global,
    header: &Header,
    evidence: &Evidence,
    bytes: &[u8],
    answer: &mut Answer,
) -> Result<bool, Refused> {
    let Ok(own) = read_log(alloc, header, bytes) else {
        return Ok(false);
    };
    if evidence.accused.get() >= header.net().generals() {
        return Err(Refused);
    }
    if !is_own_log(header, evidence.accused, &own) {
        return Ok(false);
    }
    tell_own(alloc, header, evidence, &own, answer)?;
    Ok(true)
}

/// Tells what a log of the other run of evidence by two answers, and returns whether it is the accused's own.
fn tell_by_second(
    alloc: Global,
    header: &Header,
    evidence: &Evidence,
    bytes: &[u8],
    answer: &mut Answer,
) -> Result<bool, Refused> {
    let Claim::Across { second, .. } = &evidence.claim else {
        return Ok(false);
    };
    let Ok(own) = read_log(alloc, &second.header, bytes) else {
        return Ok(false);
    };
    if evidence.accused.get() >= second.header.net().generals() {
        return Err(Refused);
    }
    if !is_own_log(&second.header, evidence.accused, &own) {
        return Ok(false);
    }
    tell_own(alloc, header, evidence, &own, answer)?;
    Ok(true)
}

/// Tells what the accused's own log answers to evidence that holds.
fn tell_own(
    alloc: Global,
    header: &Header,
    evidence: &Evidence,
    own: &Log,
    answer: &mut Answer,
) -> Result<(), Refused>
    requires { IsOwnLogFor header.now evidence.now.accused (told evidence.now.claim) own.now }
{
    if evidence.accused.get() >= header.net().generals() {
        return Err(Refused);
    }
    if !check_evidence(alloc, header, evidence)? {
        return Err(Refused);
    }
    tell_refutation(alloc, &refute(alloc, header, evidence, own)?, answer)
}

/// Tells the text that is forged, with the SHA-256 of its signature, or that two strings collide.
fn tell_refutation(
    alloc: Global,
    refutation: &Refutation,
    answer: &mut Answer,
) -> Result<(), Refused> {
    match refutation {
        Refutation::Forged(forged) => {
            answer.word("forged");
            tell_text(&forged.text, answer);
            answer.word("signature");
            answer.hash(written_signature(alloc, &forged.signature)?.as_slice());
        }
        Refutation::Collision(_, _) => answer.word("collision"),
    }
    Ok(())
}
