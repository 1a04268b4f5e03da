//! Reads the fields of evidence: texts, signatures and logs.
ghost use Rattle.std.specs.Prelude.{◌≡◌, ◌<◌, IfOk};
ghost use Rattle.gen_types.specs.Reading.{Gives};
ghost use Rattle.gen_types.specs.Spelled.{IsField};
ghost use Rattle.gen_convict.specs.EvidenceFields as field;

use crate::evidence_fault::EvidenceFault;
use gen_chain::{HeadText, Statement};
use gen_local::{SignedText, Text};
use gen_log::{LogFault, read_order, read_path};
use gen_net::{FrontFault, Header, Net};
use gen_ots::SigRoom;
use gen_tree::Signature;
use gen_tree::sizes::signature_bytes;
use gen_types::{GeneralNo, OrderNo, Path, ReadError, bytes_at, u8_at, u32_at, u64_at};
use std::alloc::Global;

/// The kind of a claim by two texts.
pub const TEXTS_KIND: u8 = 1;

/// The kind of a claim by two orders.
pub const ORDERS_KIND: u8 = 2;

/// The kind of a claim by a log and a statement that the log lacks.
pub const MISSING_KIND: u8 = 3;

/// The kind of a claim by a log that departs.
pub const DEPARTING_KIND: u8 = 4;

/// The kind of a claim by two texts of two runs.
pub const ACROSS_KIND: u8 = 5;

/// The byte before a statement.
pub const STATEMENT_KIND: u8 = 1;

/// The byte before a head.
pub const HEAD_KIND: u8 = 2;

/// The number of bytes of a last link.
const LINK_BYTES: usize = 32;

/// Returns the fault of evidence for a fault in one of the fields that logs have too.
fn field_fault(fault: LogFault) -> EvidenceFault
    ensures { result ≡ field.field_fault fault }
{
    match fault {
        LogFault::Truncated => EvidenceFault::Truncated,
        _ => EvidenceFault::OutOfRange,
    }
}

/// Reads the number of an order of the network.
pub fn read_order_field<'a>(
    bytes: &'a [u8],
    net: &Net,
) -> Result<(u8, &'a [u8]), ReadError<EvidenceFault>>
    ensures exact { IsField result (field.order_at net.now bytes.now) }
    ensures known { IfOk result (λ x. x.0 < 16) }
{
    match read_order(bytes, net) {
        Ok(order) => Ok(order),
        Err(ReadError::Memory) => Err(ReadError::Memory),
        Err(ReadError::Fault(fault)) => Err(ReadError::Fault(field_fault(fault))),
    }
}

/// Reads a statement: an order and a path of the network.
#[tactic(auto, unfolding(crate::specs::EvidenceFields::statement_at))]
pub fn read_statement<'a>(
    bytes: &'a [u8],
    net: &Net,
) -> Result<(Statement, &'a [u8]), ReadError<EvidenceFault>>
    ensures { IsField result (field.statement_at net.now bytes.now) }
{
    let (order, rest) = read_order_field(bytes, net)?;
    let mut path = Path::new();
    let order = OrderNo::at(order);
    match read_path(rest, net, &mut path) {
        Ok(rest) => Ok((Statement { order, path }, rest)),
        Err(ReadError::Memory) => Err(ReadError::Memory),
        Err(ReadError::Fault(fault)) => Err(ReadError::Fault(field_fault(fault))),
    }
}

/// Reads a text of the general, whose first byte names its kind: 1 for a statement, 2 for a head. A head is a number of
/// entries in eight bytes and a last link of 32 bytes.
#[tactic(auto, unfolding(crate::specs::EvidenceFields::text_at, crate::specs::EvidenceFields::text_of_kind, crate::specs::EvidenceFields::statement_text_at, crate::specs::EvidenceFields::head_text_at, crate::specs::EvidenceFields::head_at))]
fn read_text<'a>(
    bytes: &'a [u8],
    net: &Net,
    general: GeneralNo,
) -> Result<(Text, &'a [u8]), ReadError<EvidenceFault>>
    ensures { IsField result (field.text_at net.now general bytes.now) }
{
    let (kind, rest) = u8_at(bytes, EvidenceFault::Truncated)?;
    if kind == STATEMENT_KIND {
        match read_statement(rest, net) {
            Ok((statement, rest)) => Ok((Text::OfStatement(statement), rest)),
            Err(error) => Err(error),
        }
    } else if kind == HEAD_KIND {
        let (entries, rest) = u64_at(rest, EvidenceFault::Truncated)?;
        let (link, rest) = bytes_at(rest, LINK_BYTES, EvidenceFault::Truncated)?;
        let mut last_link = [0; LINK_BYTES];
        last_link.copy_from_slice(link);
        let head = HeadText {
            general,
            entries,
            last_link,
        };
        Ok((Text::OfHead(head), rest))
    } else {
        Err(ReadError::Fault(EvidenceFault::OutOfRange))
    }
}

/// Reads a signature, whose length is that of signatures by trees of the run's height.
pub fn read_signature<'a>(
    alloc: Global,
    bytes: &'a [u8],
    header: &Header,
) -> Result<(Signature, &'a [u8]), ReadError<EvidenceFault>>
    ensures { IsField result (field.signature_at header.now bytes.now) }
{
    let count = signature_bytes(header.height());
    let (signature, rest) = bytes_at(bytes, count, EvidenceFault::Truncated)?;
    let room = SigRoom::new(alloc, header.height())?;
    Ok((Signature::read(room, signature), rest))
}

/// Reads a text of the general and its signature.
#[tactic(auto, unfolding(crate::specs::EvidenceFields::signed_at))]
pub fn read_signed<'a>(
    alloc: Global,
    bytes: &'a [u8],
    header: &Header,
    general: GeneralNo,
) -> Result<(SignedText, &'a [u8]), ReadError<EvidenceFault>>
    ensures { IsField result (field.signed_at header.now general bytes.now) }
{
    // The rules of `?` don't cover a text beside a reference.
    let (text, rest) = match read_text(bytes, header.net(), general) {
        Ok(text) => text,
        Err(error) => return Err(error),
    };
    let (signature, rest) = read_signature(alloc, rest, header)?;
    let signed = SignedText {
        signer: general,
        text,
        signature,
    };
    Ok((signed, rest))
}

/// Reads the length of a log in four bytes and its bytes, and returns a copy of these bytes.
#[tactic(auto, unfolding(crate::specs::EvidenceFields::log_at))]
pub fn read_log_bytes(
    alloc: Global,
    bytes: &[u8],
) -> Result<(Vec<u8>, &[u8]), ReadError<EvidenceFault>>
    ensures { Gives (λ x. (x.0.items, x.1.now)) result (field.log_at bytes.now) }
{
    let (size, rest) = u32_at(bytes, EvidenceFault::Truncated)?;
    let (log, rest) = bytes_at(rest, size as usize, EvidenceFault::Truncated)?;
    Ok((Vec::from_slice(alloc, log)?, rest))
}

/// Returns the fault of evidence for a fault of the mark or the header.
pub fn front_fault(fault: FrontFault) -> EvidenceFault
    ensures { result ≡ field.front_fault fault }
{
    match fault {
        FrontFault::Truncated => EvidenceFault::Truncated,
        FrontFault::UnknownMark => EvidenceFault::UnknownMark,
        FrontFault::BadHeader(rule) => EvidenceFault::BadHeader(rule),
    }
}
