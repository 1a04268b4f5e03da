//! The job `receipt`: writes the receipt of a general's log.
ghost use Rattle.std.specs.Prelude.{◌<◌, [], ◌∷◌, All, IfErr, IfNone, IfOk, IfSome};
ghost use Rattle.gen_types.specs.Spelled.{Spells};
ghost use Rattle.gen_net.specs.Header.{run_id_of};
ghost use Rattle.gen_audit.specs.Bundle.{IsBundle};
ghost use Rattle.gen_audit.specs.BundleParts.{IsExhibit};
ghost use Rattle.gen_audit.specs.BundleSpelling.{bundle_spelling};
ghost use Rattle.gen_asked.specs.AskedRuns.{AreAsked};
ghost use Rattle.gen_receipting.specs.Giving.{GivesFirst, GivesNone, GivesReceipt, IsReceiptFault, IsReceiptIn};

use gen_asked::AskedRuns;
use gen_audit::{Bundle, read_bundle};
use gen_ends::{JobFault, Output};
use gen_local::Exhibit;
use gen_net::Header;
use gen_receipt::laws::receipts_are_complete;
use gen_receipt::{Receipt, receipt_holds, receipt_of_bytes, write_receipt};
use gen_types::{GeneralNo, ReadError};
use std::alloc::{AllocError, Global};

/// Returns the receipt of the log that an exhibit is, if the exhibit is this general's, reads as a log, and the
/// receipt holds.
fn receipt_in(
    alloc: Global,
    header: &Header,
    general: GeneralNo,
    exhibit: &Exhibit,
) -> Result<Option<Receipt>, AllocError>
    requires { exhibit.now.general < header.now.network.generals }
    ensures found { IfOk result (λ found.
        IfSome found (GivesReceipt header.now general exhibit.now)) }
    ensures none { IfOk result (λ found. IfNone found (GivesNone header.now general exhibit.now)) }
{
    receipts_are_complete();
    if exhibit.general() != general {
        return Ok(None);
    }
    match receipt_of_bytes(alloc, header, general, exhibit.log()) {
        Ok(receipt) => {
            if receipt_holds(header, &receipt) {
                Ok(Some(receipt))
            } else {
                Ok(None)
            }
        }
        Err(ReadError::Memory) => Err(AllocError),
        Err(ReadError::Fault(_)) => Ok(None),
    }
}

/// Returns the bytes of the receipt of a general that these exhibits give first. If they give none, there are no
/// bytes, and the output says no.
fn first_receipt(
    alloc: Global,
    header: &Header,
    exhibits: &[Exhibit],
    general: GeneralNo,
) -> Result<Output, AllocError>
    requires { All (IsExhibit header.now.network.generals) exhibits.now }
    ensures { IfOk result (λ o.
        GivesFirst header.now exhibits.now general o.text.items o.negative) }
{
    'exhibits: for place in 0..exhibits.len() {
        let found = receipt_in(alloc, header, general, &exhibits[place])?;
        if let Some(receipt) = found {
            return Ok(Output {
                text: write_receipt(alloc, header, &receipt)?,
                negative: false,
            });
        }
    }
    Ok(Output {
        text: Vec::new(alloc),
        negative: true,
    })
}

/// Returns the bundle that the input spells, which stands alone and must be of the run that is asked for.
fn bundle_asked(alloc: Global, asked: AskedRuns, input: &[u8]) -> Result<Bundle, JobFault>
    ensures spelled { IfOk result (λ bundle. Spells IsBundle bundle_spelling input.now bundle) }
    ensures run { IfOk result (λ bundle. AreAsked asked (run_id_of bundle.header ∷ [])) }
    ensures fault { IfErr result (IsReceiptFault asked input.now) }
{
    let bundle = read_bundle(alloc, input)?;
    if asked.are(&[*bundle.header().run_id()]) {
        Ok(bundle)
    } else {
        Err(JobFault::OtherRun)
    }
}

/// Returns the bytes of the receipt of a general's log in the bundle that the input spells. The bundle stands alone
/// and must be of the run that is asked for. The receipt is that of the first exhibit of the general that reads as a
/// log and whose receipt holds. If there is none, or the number is no general of the network, there are no bytes, and
/// the output says no.
///
/// # Errors
///
/// `Campaign` with the first fault of an input that spells no bundle, as that of a bundle alone; else `OtherRun` if
/// the run is another. `Memory` if memory is refused.
pub fn receipt(
    alloc: Global,
    asked: AskedRuns,
    general: GeneralNo,
    input: &[u8],
) -> Result<Output, JobFault>
    ensures answer { IfOk result (λ o. IsReceiptIn asked general input.now o.text.items o.negative) }
    ensures fault { IfErr result (IsReceiptFault asked input.now) }
{
    let bundle = bundle_asked(alloc, asked, input)?;
    Ok(first_receipt(alloc, bundle.header(), bundle.exhibits(), general)?)
}
