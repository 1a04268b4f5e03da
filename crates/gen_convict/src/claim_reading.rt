//! Reads claims against a general.
ghost use Rattle.std.specs.Prelude.{◌<◌, IfOk};
ghost use Rattle.gen_types.specs.Reading.{Gives};
ghost use Rattle.gen_convict.specs.ClaimReading as reading;
ghost use Rattle.gen_convict.specs.Told.{told};

use crate::claims::Claim;
use crate::evidence_fault::EvidenceFault;
use crate::evidence_fields::{
    ACROSS_KIND, DEPARTING_KIND, MISSING_KIND, ORDERS_KIND, STATEMENT_KIND, TEXTS_KIND,
    front_fault, read_log_bytes, read_order_field, read_signature, read_signed, read_statement,
};
use crate::run_texts::RunText;
use crate::shared_leaves::share_leaves;
use gen_net::{Header, VERSION_TWO, Version, read_header_of};
use gen_tree::Signature;
use gen_types::{GeneralNo, OrderNo, ReadError, check, u8_at, u32_at};
use std::alloc::Global;

/// Reads the number of an order, and the signature of the commander's statement of it.
#[tactic(auto, unfolding(crate::specs::ClaimReading::command_at))]
fn read_command<'a>(
    alloc: Global,
    bytes: &'a [u8],
    header: &Header,
) -> Result<(u8, Signature, &'a [u8]), ReadError<EvidenceFault>>
    ensures exact { Gives (λ x. ((x.0, x.1), x.2.now)) result (reading.command_at header.now bytes.now) }
    ensures known { IfOk result (λ x. x.0 < 16) }
{
    let (order, rest) = read_order_field(bytes, header.net())?;
    let (signature, rest) = read_signature(alloc, rest, header)?;
    Ok((order, signature, rest))
}

/// Reads a log, and a signed text that has to be a statement, which is claimed to be missing from the log.
#[tactic(auto, unfolding(crate::specs::ClaimReading::missing_at, crate::specs::ClaimReading::missing_statement_at))]
fn read_missing<'a>(
    alloc: Global,
    bytes: &'a [u8],
    header: &Header,
) -> Result<(Claim, &'a [u8]), ReadError<EvidenceFault>>
    ensures { Gives (λ x. (told x.0, x.1.now)) result (reading.missing_at header.now bytes.now) }
{
    let (log, rest) = read_log_bytes(alloc, bytes)?;
    let (kind, rest) = u8_at(rest, EvidenceFault::Truncated)?;
    check(kind == STATEMENT_KIND, EvidenceFault::OutOfRange)?;
    // The rules of `?` don't cover a statement beside a reference.
    let (statement, rest) = match read_statement(rest, header.net()) {
        Ok(statement) => statement,
        Err(error) => return Err(error),
    };
    let (signature, rest) = read_signature(alloc, rest, header)?;
    let claim = Claim::Missing {
        log,
        statement,
        signature,
    };
    Ok((claim, rest))
}

/// Reads the header of another run that uses the same leaves, and a signed text of each run.
#[tactic(auto, unfolding(crate::specs::ClaimReading::across_at, crate::specs::EvidenceFields::second_header_at))]
fn read_across<'a>(
    alloc: Global,
    bytes: &'a [u8],
    header: &Header,
    accused: GeneralNo,
) -> Result<(Claim, &'a [u8]), ReadError<EvidenceFault>>
    ensures { Gives (λ x. (told x.0, x.1.now)) result
        (reading.across_at header.now accused bytes.now) }
{
    check(header.version() != Version::One, EvidenceFault::OutOfRange)?;
    let (other, rest) = match read_header_of(alloc, VERSION_TWO, bytes) {
        Ok(header) => header,
        Err(ReadError::Memory) => return Err(ReadError::Memory),
        Err(ReadError::Fault(fault)) => return Err(ReadError::Fault(front_fault(fault))),
    };
    check(share_leaves(header, &other), EvidenceFault::OtherLeaves)?;
    let (text, rest) = read_signed(alloc, rest, header, accused)?;
    let (other_text, rest) = read_signed(alloc, rest, &other, accused)?;
    let first = RunText {
        header: header.clone()?,
        text,
    };
    let second = RunText {
        header: other,
        text: other_text,
    };
    Ok((Claim::Across { first, second }, rest))
}

/// Reads a claim against the accused, whose first byte names its kind, 1 to 5.
#[tactic(auto, unfolding(crate::specs::ClaimReading::claim_at, crate::specs::ClaimReading::claim_of_kind, crate::specs::ClaimReading::two_texts_at, crate::specs::ClaimReading::two_orders_at, crate::specs::ClaimReading::departing_at))]
pub fn read_claim<'a>(
    alloc: Global,
    bytes: &'a [u8],
    header: &Header,
    accused: GeneralNo,
) -> Result<(Claim, &'a [u8]), ReadError<EvidenceFault>>
    ensures { Gives (λ x. (told x.0, x.1.now)) result
        (reading.claim_at header.now accused bytes.now) }
{
    let (kind, rest) = u8_at(bytes, EvidenceFault::Truncated)?;
    if kind == TEXTS_KIND {
        let (first, rest) = read_signed(alloc, rest, header, accused)?;
        let (second, rest) = read_signed(alloc, rest, header, accused)?;
        Ok((Claim::Texts { first, second }, rest))
    } else if kind == ORDERS_KIND {
        let (first, first_signature, rest) = read_command(alloc, rest, header)?;
        let (second, second_signature, rest) = read_command(alloc, rest, header)?;
        let claim = Claim::Orders {
            first: OrderNo::at(first),
            first_signature,
            second: OrderNo::at(second),
            second_signature,
        };
        Ok((claim, rest))
    } else if kind == MISSING_KIND {
        read_missing(alloc, rest, header)
    } else if kind == DEPARTING_KIND {
        let (log, rest) = read_log_bytes(alloc, rest)?;
        let (entry, rest) = u32_at(rest, EvidenceFault::Truncated)?;
        Ok((Claim::Departing { log, entry }, rest))
    } else if kind == ACROSS_KIND {
        read_across(alloc, rest, header, accused)
    } else {
        Err(ReadError::Fault(EvidenceFault::OutOfRange))
    }
}
