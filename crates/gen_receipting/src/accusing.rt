//! The job `accuse` over receipts: writes the evidence against a general.
ghost use Rattle.std.specs.Prelude.{IfErr, IfOk};
ghost use Rattle.gen_receipt.specs.ReceiptSpelling.{IsReceiptFile, file_of};
ghost use Rattle.gen_receipting.specs.Accusing.{AccusesBy, AccusesByReceipts};
ghost use Rattle.gen_receipting.specs.Telling.{AreReceiptsFault};

use crate::reading::read_asked;
use gen_asked::AskedRuns;
use gen_convict::write_evidence;
use gen_ends::{JobFault, Output};
use gen_receipt::{RunReceipts, evidence_by_receipts};
use gen_types::GeneralNo;
use std::alloc::{AllocError, Global};

/// Returns the bytes of the evidence against a general by receipts of a run. If there is none, there are no bytes,
/// and the output says no.
fn accusation_by(
    alloc: Global,
    read: &RunReceipts,
    general: GeneralNo,
) -> Result<Output, AllocError>
    requires { IsReceiptFile (file_of read.now) }
    ensures { IfOk result (λ o. AccusesBy general (file_of read.now) o.text.items o.negative) }
{
    let found = evidence_by_receipts(alloc, &read.header, read.receipts.as_slice(), general)?;
    match found {
        Some(evidence) => Ok(Output {
            text: write_evidence(alloc, &read.header, &evidence)?,
            negative: false,
        }),
        None => Ok(Output {
            text: Vec::new(alloc),
            negative: true,
        }),
    }
}

/// Returns the bytes of the evidence against a general by the receipts of a run that the input spells: the heads of
/// the first two receipts of the general that hold and have different heads. If there are no such two, or the number
/// is no general of the network, there are no bytes, and the output says no. The run must be the one that is asked
/// for.
///
/// # Errors
///
/// `Receipt` with the first fault of an input that spells no receipts of a run; else `OtherRun` if the run is
/// another. `Memory` if memory is refused.
pub fn accuse_by_receipts(
    alloc: Global,
    asked: AskedRuns,
    general: GeneralNo,
    input: &[u8],
) -> Result<Output, JobFault>
    ensures answer { IfOk result (λ o. AccusesByReceipts asked general input.now o.text.items o.negative) }
    ensures fault { IfErr result (AreReceiptsFault asked input.now) }
{
    let read = read_asked(alloc, asked, input)?;
    Ok(accusation_by(alloc, &read, general)?)
}
