//! Collects all findings of a bundle.
ghost use Rattle.std.specs.Prelude.{◌≡◌, ◌++◌, length, IfOk, OnOk};
ghost use Rattle.std.specs.List.{flat_map};
ghost use Rattle.gen_types.specs.Ascending.{IsListOf};
ghost use Rattle.gen_match.specs.Findings.{AreFindings};
ghost use Rattle.gen_audit.specs.Bundle.{IsOfRest, exhibits_of};
ghost use Rattle.gen_audit.specs.Collecting.{AddsFindings, shown_found, FindsRead, FindsUnjoined};
ghost use Rattle.gen_audit.specs.Findings.{IsFinding};
ghost use Rattle.gen_audit.specs.LocalFindings.{finds, unsigned_at, unless_sealed, departs_at};
ghost use Rattle.gen_audit.specs.Telling.{AreReports};

use crate::bundles::Bundle;
use crate::sorting::in_order;
use gen_local::{Exhibit, LocalReport, OwnLog, Reading};
use gen_match::{Finding, check_derived, match_edges};
use gen_net::Net;
use gen_types::{GeneralNo, GeneralSet};
use gen_walks::{Walks, check_walks};
use std::alloc::{AllocError, Global};

/// Returns the number of a general's exhibits.
fn amount_shown(exhibits: &[Exhibit], general: GeneralNo) -> usize
    ensures { result ≡ length (exhibits_of exhibits.now general) }
{
    exhibits
        .iter()
        .filter(|exhibit| exhibit.general() == general)
        .count()
}

/// Appends the finding for the number of a general's exhibits: none for one exhibit, `Missing` for none, `Several` for
/// more.
fn add_amount(
    exhibits: &[Exhibit],
    general: GeneralNo,
    findings: &mut Vec<Finding>,
) -> Result<(), AllocError>
    ensures { OnOk result (findings.new.items ≡ findings.old.items ++ shown_found exhibits.now general) }
{
    match amount_shown(exhibits, general) {
        0 => findings.push(Finding::Missing { general })?,
        1 => {}
        _ => findings.push(Finding::Several { general })?,
    }
    Ok(())
}

/// Appends which generals of the rest have no exhibit, and which have several.
fn add_amounts(
    exhibits: &[Exhibit],
    rest: &GeneralSet,
    findings: &mut Vec<Finding>,
) -> Result<(), AllocError>
    ensures { OnOk result (findings.new.items
        ≡ findings.old.items ++ flat_map (shown_found exhibits.now) rest.now) }
{
    'generals: for general in rest.iter() {
        add_amount(exhibits, general, findings)?;
    }
    Ok(())
}

/// Appends what is found against a log that says it is the general's of this run.
fn add_own(
    general: GeneralNo,
    found: &OwnLog,
    findings: &mut Vec<Finding>,
) -> Result<(), AllocError>
    ensures { OnOk result (findings.new.items ≡ findings.old.items
        ++ (unsigned_at general found.now.unsigned
        ++ (unless_sealed general found.now.sealed ++ departs_at general found.now.departure))) }
{
    if let Some(entry) = found.unsigned() {
        findings.push(Finding::Unsigned { general, entry })?;
    }
    if !found.is_sealed() {
        findings.push(Finding::Unsealed { general })?;
    }
    if let Some(entry) = found.departure() {
        findings.push(Finding::Departs { general, entry })?;
    }
    Ok(())
}

/// Appends what the reading of a general's exhibit finds.
fn add_reading(
    general: GeneralNo,
    reading: &Reading,
    findings: &mut Vec<Finding>,
) -> Result<(), AllocError>
    ensures { OnOk result (findings.new.items ≡ findings.old.items ++ finds general reading.now) }
{
    match reading {
        Reading::Unreadable(fault) => findings.push(Finding::Unreadable {
            general,
            fault: *fault,
        })?,
        Reading::Foreign => findings.push(Finding::Foreign { general })?,
        Reading::Own(found) => add_own(general, found, findings)?,
    }
    Ok(())
}

/// Appends what the reports of the rest's exhibits find.
fn add_reports(
    rest: &GeneralSet,
    reports: &[LocalReport],
    findings: &mut Vec<Finding>,
) -> Result<(), AllocError>
    ensures { OnOk result (AddsFindings (FindsRead rest.now reports.now) findings.old.items findings.new.items) }
{
    for report in reports {
        let general = report.exhibit().general();
        if rest.contains(general) {
            add_reading(general, report.reading(), findings)?;
        }
    }
    Ok(())
}

/// Appends that the set is empty, or else the least pair of it that no walk joins, if there is one.
fn add_unjoined(
    net: &Net,
    rest: &GeneralSet,
    walks: &Walks,
    findings: &mut Vec<Finding>,
) -> Result<(), AllocError>
    ensures { OnOk result (AddsFindings (FindsUnjoined net.now rest.now walks.now)
        findings.old.items findings.new.items) }
{
    if rest.is_empty() {
        findings.push(Finding::Nobody)?;
    } else if let Err(bad) = check_walks(net, rest, walks) {
        findings.push(Finding::Unjoined {
            first: bad.a,
            second: bad.b,
        })?;
    }
    Ok(())
}

/// Returns all findings of a bundle in their one order, from its rest and the reports of its exhibits.
///
/// # Errors
///
/// `AllocError` where memory is refused.
pub(crate) fn findings_in(
    alloc: Global,
    bundle: &Bundle,
    rest: &GeneralSet,
    reports: &[LocalReport],
) -> Result<Vec<Finding>, AllocError>
    requires rest { IsListOf rest.now (IsOfRest bundle.now) }
    requires reports { AreReports bundle.now reports.now }
    ensures { IfOk result (λ findings. AreFindings (IsFinding bundle.now) findings.items) }
{
    let (header, faulty) = (bundle.header(), bundle.faulty());
    let mut findings = Vec::new(alloc);
    add_amounts(bundle.exhibits(), rest, &mut findings)?;
    add_reports(rest, reports, &mut findings)?;
    let edges = match_edges(alloc, header, faulty, reports)?;
    findings.extend_from_slice(edges.as_slice())?;
    let derived = check_derived(alloc, header, faulty, reports)?;
    findings.extend_from_slice(derived.as_slice())?;
    add_unjoined(header.net(), rest, bundle.walks(), &mut findings)?;
    in_order(alloc, findings)
}
