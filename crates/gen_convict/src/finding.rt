//! Finds evidence in the reports of one run.
ghost use Rattle.std.specs.Prelude.{◌≡◌, Contains, IfOk, map};
ghost use Rattle.std.specs.Option.{option_map};
ghost use Rattle.gen_log.specs.Fields.{AreBelow};
ghost use Rattle.gen_local.specs.Report.{IsReport, LocalReport as Report};
ghost use Rattle.gen_convict.specs.Convictions.{AreConvictions, AreEvidence, AreFirst, AreShort, AreUnderHeader, ConvictsWhereHeld, shown_in};
ghost use Rattle.gen_convict.specs.Evidence.{told_of};
ghost use Rattle.gen_convict.specs.FindingClaims as finds;
ghost use Rattle.gen_convict.specs.Told.{told};

use crate::claims::Claim;
use crate::evidence::Evidence;
use crate::gathered::{one_of_each, texts_by};
use crate::log_claims::{departing_claim, missing_claim};
use crate::text_claims::{orders_claim, texts_claim};
use gen_local::LocalReport;
use gen_net::Header;
use gen_types::GeneralNo;
use std::alloc::{AllocError, Global};

/// Returns the claim of the least kind that the reports give against a general, if there is one: by two of its texts, by
/// two of its orders, by a log that lacks a statement that it signed, or by a log that departs.
fn claim_against(
    alloc: Global,
    general: GeneralNo,
    reports: &[LocalReport],
) -> Result<Option<Claim>, AllocError>
    ensures { IfOk result (λ claim. option_map told claim ≡ finds.claim_for reports.now general) }
{
    let gathered = texts_by(alloc, general, reports)?;
    let texts = gathered.as_slice();
    let of_each = one_of_each(alloc, texts)?;
    let firsts = of_each.as_slice();
    if let Some(claim) = texts_claim(alloc, firsts, texts)? {
        return Ok(Some(claim));
    }
    if let Some(claim) = orders_claim(alloc, general, texts)? {
        return Ok(Some(claim));
    }
    if let Some(claim) = missing_claim(alloc, general, firsts, reports)? {
        return Ok(Some(claim));
    }
    departing_claim(alloc, general, reports)
}

/// Makes known that each of the bytes is less than 256.
fn note_bytes(bytes: &[u8])
    ensures { AreBelow 256 bytes.now }
{
    let _bytes = bytes.len();
}

/// Makes known of each report that it is one, and that its exhibit consists of bytes.
pub fn note_reports(reports: &[LocalReport])
    ensures { (r : Report) → Contains reports.now r → IsReport r × AreBelow 256 r.exhibit.bytes }
{
    for report in reports {
        let _reading = report.reading();
        note_bytes(report.exhibit().log());
    }
}

/// Returns, for each general, the first claim that the exhibits hold against it, in ascending order of generals. The
/// first claim is of the least kind, and the first of that kind in the one order of the exhibits' texts and logs. The
/// reports are those of the exhibits, in their order, under the header.
///
/// # Errors
///
/// `AllocError` where memory is refused.
pub fn find_evidence(
    alloc: Global,
    header: &Header,
    reports: &[LocalReport],
) -> Result<Vec<Evidence>, AllocError>
    requires { AreUnderHeader header.now reports.now }
    // Each is the first claim that the exhibits hold against its general.
    ensures right { IfOk result (λ found.
        AreFirst header.now (shown_in reports.now) (map told_of found.items)) }
    // If each exhibit has fewer than 2^32 bytes, exactly the generals of the network with a first claim are convicted,
    // each by that claim. Then the number of the entry at which a log departs fits into four bytes.
    ensures found { IfOk result (λ found. AreShort (shown_in reports.now)
        → AreConvictions header.now (shown_in reports.now) (map told_of found.items)) }
    // So a general is convicted if and only if the exhibits hold a contradiction of the general.
    ensures held { IfOk result (λ found. AreShort (shown_in reports.now)
        → ConvictsWhereHeld header.now (shown_in reports.now) (map told_of found.items)) }
    // Each of these can be written as evidence.
    ensures lawful { IfOk result (λ found. AreShort (shown_in reports.now)
        → AreEvidence header.now (map told_of found.items)) }
{
    note_reports(reports);
    let generals = header.net().generals();
    let mut found = Vec::new(alloc);
    for number in 0..generals {
        let accused = GeneralNo::at(number);
        match claim_against(alloc, accused, reports)? {
            None => {}
            Some(claim) => found.push(Evidence { accused, claim })?,
        }
    }
    Ok(found)
}
