//! Writes evidence.
ghost use Rattle.std.specs.Prelude.{◌≡◌, ◌<◌, ◌^◌, ◌∷◌, ◌++◌, length, IfOk, OnOk};
ghost use Rattle.gen_convict.specs.Evidence.{IsEvidence, HasShortLog, told_of};
ghost use Rattle.gen_convict.specs.EvidenceSpelling as spelling;
ghost use Rattle.gen_convict.specs.EvidenceSpelling.{signed_spelling, shown_spelling, claim_spelling};
ghost use Rattle.gen_convict.specs.EvidenceSpelling.{evidence_spelling};
ghost use Rattle.gen_convict.specs.Told.{told};

use crate::claims::Claim;
use crate::evidence::Evidence;
use crate::evidence_fields::{HEAD_KIND, STATEMENT_KIND};
use crate::evidence_reading::EVIDENCE_MARKS;
use gen_chain::Statement;
use gen_local::{SignedText, Text};
use gen_log::put_path;
use gen_net::{Header, front_bytes, header_bytes};
use std::alloc::{AllocError, Global};

/// Appends the byte of the kind and a statement.
fn put_statement(out: &mut Vec<u8>, statement: &Statement) -> Result<(), AllocError>
    ensures { OnOk result (out.new.items
        ≡ out.old.items ++ spelling.statement_kind ∷ spelling.statement_spelling statement.now) }
{
    let path = &statement.path;
    out.extend_from_slice(&[STATEMENT_KIND, statement.order.get()])?;
    out.reserve(1 + path.len())?;
    put_path(out, path);
    Ok(())
}

/// Appends a text, which is the byte of its kind and the statement or the head, and its signature.
fn put_signed(out: &mut Vec<u8>, signed: &SignedText) -> Result<(), AllocError>
    ensures { OnOk result (out.new.items ≡ out.old.items ++ signed_spelling signed.now) }
{
    match &signed.text {
        Text::OfStatement(statement) => put_statement(out, statement)?,
        Text::OfHead(head) => {
            out.push(HEAD_KIND)?;
            out.extend_from_slice(&head.entries.to_be_bytes())?;
            out.extend_from_slice(&head.last_link)?;
        }
    }
    signed.signature.append_to(out)
}

/// Appends the length of a log in four bytes and its bytes. The length is below 2^32.
fn put_log(out: &mut Vec<u8>, log: &[u8]) -> Result<(), AllocError>
    requires { length log.now < 2 ^ 32 }
    ensures { OnOk result (out.new.items ≡ out.old.items ++ shown_spelling log.now) }
{
    out.extend_from_slice(&(log.len() as u32).to_be_bytes())?;
    out.extend_from_slice(log)
}

/// Appends a claim without the byte of its kind.
fn put_claim(out: &mut Vec<u8>, claim: &Claim) -> Result<(), AllocError>
    requires { HasShortLog (told claim.now) }
    ensures { OnOk result (out.new.items ≡ out.old.items ++ claim_spelling (told claim.now)) }
{
    match claim {
        Claim::Texts { first, second } => {
            put_signed(out, first)?;
            put_signed(out, second)
        }
        Claim::Orders {
            first,
            first_signature,
            second,
            second_signature,
        } => {
            out.push(first.get())?;
            first_signature.append_to(out)?;
            out.push(second.get())?;
            second_signature.append_to(out)
        }
        Claim::Missing {
            log,
            statement,
            signature,
        } => {
            put_log(out, log.as_slice())?;
            put_statement(out, statement)?;
            signature.append_to(out)
        }
        Claim::Departing { log, entry } => {
            put_log(out, log.as_slice())?;
            out.extend_from_slice(&entry.to_be_bytes())
        }
        Claim::Across { first, second } => {
            let header = header_bytes(*out.allocator(), &second.header)?;
            out.extend_from_slice(&header)?;
            put_signed(out, &first.text)?;
            put_signed(out, &second.text)
        }
    }
}

/// Returns the one spelling of evidence under its header, which `read_evidence` reads. It fails only if memory is
/// refused.
pub fn write_evidence(
    alloc: Global,
    header: &Header,
    evidence: &Evidence,
) -> Result<Vec<u8>, AllocError>
    requires { IsEvidence header.now (told_of evidence.now) }
    ensures { IfOk result (λ bytes. bytes.items ≡ evidence_spelling header.now (told_of evidence.now)) }
{
    let mut out = front_bytes(alloc, EVIDENCE_MARKS, header)?;
    out.extend_from_slice(&[evidence.accused.get(), evidence.claim.kind()])?;
    put_claim(&mut out, &evidence.claim)?;
    Ok(out)
}
