//! Finds claims by a log of the general.
ghost use Rattle.std.specs.Prelude.{◌≡◌, IfOk, Some, map};
ghost use Rattle.std.specs.Option.{option_map};
ghost use Rattle.gen_convict.specs.FindingClaims as finds;
ghost use Rattle.gen_convict.specs.Told.{told};

use crate::claims::Claim;
use crate::text_likeness::is_unsaid;
use gen_local::{LocalReport, Reading, SignedText, Text};
use gen_types::GeneralNo;
use std::alloc::{AllocError, Global};

/// Returns the first of the texts that is a statement without a SIGN in the log of this reading, if that log is sealed.
fn unsaid_in<'a>(firsts: &[&'a SignedText], reading: &Reading) -> Option<&'a SignedText>
    ensures { option_map (λ t. t.now) result
        ≡ finds.unsaid_in (map (λ t. t.now) firsts.now) reading.now }
{
    let Reading::Own(found) = reading else {
        return None;
    };
    if !found.is_sealed() {
        return None;
    }
    let log = found.log();
    for text in firsts {
        if is_unsaid(log, &text.text) {
            return Some(text);
        }
    }
    None
}

/// Returns the claim by the first sealed log of the general from which one of these statements is missing.
pub fn missing_claim(
    alloc: Global,
    general: GeneralNo,
    firsts: &[&SignedText],
    reports: &[LocalReport],
) -> Result<Option<Claim>, AllocError>
    ensures { IfOk result (λ claim. option_map told claim
        ≡ finds.missing_claim general (map (λ t. t.now) firsts.now) reports.now) }
{
    for report in reports {
        if report.exhibit().general() == general && unsaid_in(firsts, report.reading()).is_some() {
            let Some(text) = unsaid_in(firsts, report.reading()) else {
                return Ok(None);
            };
            return match text.text {
                Text::OfHead(_) => Ok(None),
                Text::OfStatement(statement) => Ok(Some(Claim::Missing {
                    log: Vec::from_slice(alloc, report.exhibit().log())?,
                    statement,
                    signature: text.signature.share(alloc)?,
                })),
            };
        }
    }
    Ok(None)
}

/// Returns the entry at which the log of a reading departs, if that log is sealed and departs.
fn departure_in(reading: &Reading) -> Option<usize>
    ensures { result ≡ finds.departure_in reading.now }
{
    match reading {
        Reading::Own(found) => {
            let sealed = found.is_sealed();
            if sealed {
                return found.departure();
            }
            None
        }
        _ => None,
    }
}

/// Returns the claim by the first sealed log of the general that departs, if the entry's number fits into four bytes.
pub fn departing_claim(
    alloc: Global,
    general: GeneralNo,
    reports: &[LocalReport],
) -> Result<Option<Claim>, AllocError>
    ensures { IfOk result (λ claim. option_map told claim
        ≡ finds.departing_claim general reports.now) }
{
    for report in reports {
        if report.exhibit().general() == general && departure_in(report.reading()).is_some() {
            let Some(index) = departure_in(report.reading()) else {
                return Ok(None);
            };
            if index > u32::MAX as usize {
                return Ok(None);
            }
            let log = Vec::from_slice(alloc, report.exhibit().log())?;
            let entry = index as u32;
            return Ok(Some(Claim::Departing { log, entry }));
        }
    }
    Ok(None)
}
