//! Reads the receipts of the run that is asked for.
ghost use Rattle.std.specs.Prelude.{[], ◌∷◌, IfErr, IfOk};
ghost use Rattle.gen_types.specs.Spelled.{Spells};
ghost use Rattle.gen_net.specs.Header.{run_id_of};
ghost use Rattle.gen_receipt.specs.ReceiptSpelling.{IsReceiptFile, file_of, file_spelling};
ghost use Rattle.gen_asked.specs.AskedRuns.{AreAsked};
ghost use Rattle.gen_receipting.specs.Telling.{AreReceiptsFault};

use gen_asked::AskedRuns;
use gen_ends::JobFault;
use gen_receipt::{RunReceipts, read_receipts};
use std::alloc::Global;

/// Returns the receipts of a run that the input spells, which must be the run that is asked for.
pub(crate) fn read_asked(
    alloc: Global,
    asked: AskedRuns,
    input: &[u8],
) -> Result<RunReceipts, JobFault>
    ensures spelled { IfOk result (λ read.
        Spells IsReceiptFile file_spelling input.now (file_of read)) }
    ensures run { IfOk result (λ read. AreAsked asked (run_id_of read.header ∷ [])) }
    ensures fault { IfErr result (AreReceiptsFault asked input.now) }
{
    let read = read_receipts(alloc, input)?;
    if asked.are(&[*read.header.run_id()]) {
        Ok(read)
    } else {
        Err(JobFault::OtherRun)
    }
}
