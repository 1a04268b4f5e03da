//! Reads evidence.
ghost use Rattle.std.specs.Prelude.{◌<◌, IfOk, Ok};
ghost use Rattle.gen_types.specs.Reading.{Gives};
ghost use Rattle.gen_types.specs.Spelled.{Spells};
ghost use Rattle.gen_convict.specs.Evidence.{told_of};
ghost use Rattle.gen_convict.specs.EvidenceReading.{IsWhole, whole_evidence};
ghost use Rattle.gen_convict.specs.EvidenceSpelling.{HeaderAndEvidence, whole_spelling};

use crate::claim_reading::read_claim;
use crate::evidence::Evidence;
use crate::evidence_fault::EvidenceFault;
use crate::evidence_fields::front_fault;
use gen_net::{Header, Marks, read_front};
use gen_types::{GeneralNo, ReadError, check, u8_at};
use std::alloc::Global;

/// The first four bytes of evidence, `SME1` before a header of version 1 and `SME2` before one of version 2.
pub const EVIDENCE_MARKS: Marks = Marks {
    one: 0x534d_4531,
    two: 0x534d_4532,
};

/// Reads the header and the evidence that all the bytes are.
#[tactic(auto, unfolding(crate::specs::EvidenceReading::whole_evidence, crate::specs::EvidenceReading::evidence_at, crate::specs::EvidenceReading::accusation_at, crate::specs::EvidenceReading::accused_at))]
fn evidence_alone(
    alloc: Global,
    bytes: &[u8],
) -> Result<(Header, Evidence), ReadError<EvidenceFault>>
    ensures { Gives (λ x. record { header = x.0; evidence = told_of x.1 }) result
        (whole_evidence bytes.now) }
{
    let (header, rest) = match read_front(alloc, EVIDENCE_MARKS, bytes) {
        Ok(header) => header,
        Err(ReadError::Memory) => return Err(ReadError::Memory),
        Err(ReadError::Fault(fault)) => return Err(ReadError::Fault(front_fault(fault))),
    };
    let (accused, rest) = u8_at(rest, EvidenceFault::Truncated)?;
    check(accused < header.net().generals(), EvidenceFault::OutOfRange)?;
    let accused = GeneralNo::at(accused);
    let (claim, rest) = read_claim(alloc, rest, &header, accused)?;
    check(rest.is_empty(), EvidenceFault::LeftOver)?;
    Ok((header, Evidence { accused, claim }))
}

/// Returns the header and the evidence that all the bytes are. The bytes begin with `SME1` and a header of version 1,
/// or with `SME2` and a header of version 2. After the header stand the number of the accused, the kind of the claim, 1
/// to 5, and the claim.
///
/// Kind 1 is two signed texts. Kind 2 is two orders, each followed by the signature of the commander's statement. Kind
/// 3 is a log and a signed statement. Kind 4 is a log and the number of an entry in four bytes. Kind 5, in version 2
/// alone, is the header of another run and a signed text of each run.
///
/// A signed text is a text and its signature. A text is 1, an order, the length of a path and the path; or it is 2, a
/// number of entries in eight bytes and a last link. A log is its length in four bytes and its bytes, which are not
/// read as a log.
///
/// # Errors
///
/// The first fault of `EvidenceFault` from left to right, or `Memory` if memory was refused before that fault.
pub fn read_evidence(
    alloc: Global,
    bytes: &[u8],
) -> Result<(Header, Evidence), ReadError<EvidenceFault>>
    // What is read is lawful evidence under a lawful header, and the bytes are its spelling.
    ensures found { IfOk result (λ x. Spells IsWhole whole_spelling bytes.now
        (record { header = x.0; evidence = told_of x.1 })) }
    // Evidence that the bytes spell is read, unless memory is refused.
    ensures only { (e : HeaderAndEvidence) → Spells IsWhole whole_spelling bytes.now e
        → Gives (λ x. record { header = x.0; evidence = told_of x.1 }) result (Ok e) }
    // Unless memory is refused, the result is that of `whole_evidence`, with the same fault.
    ensures exact { Gives (λ x. record { header = x.0; evidence = told_of x.1 }) result
        (whole_evidence bytes.now) }
{
    evidence_alone(alloc, bytes)
}
