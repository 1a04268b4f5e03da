//! Which reports of a desk are those of a bundle's exhibits.
ghost use Rattle.std.specs.Prelude.{◌≡◌, ◌↔◌, ◌++◌, ◌∷◌, [], List, true, IsTrue, IfOk, IfSome};
ghost use Rattle.gen_log.specs.Writing.{LogBytes};
ghost use Rattle.gen_local.specs.Report.{AreReportsOf};

use gen_desk::Row;
use gen_local::{Exhibit, LocalReport};
use gen_net::Header;
use std::alloc::{AllocError, Global};

/// Returns whether two headers are the same.
fn is_same_header(one: &Header, other: &Header) -> bool
    ensures { IsTrue result ↔ (one.now ≡ other.now) }
{
    one == other
}

/// Returns whether a report is the one of this exhibit under this header.
fn is_report_of(report: &LocalReport, header: &Header, exhibit: &Exhibit) -> bool
    ensures { IsTrue result ↔ ((report.now.header ≡ header.now) × (report.now.exhibit ≡ exhibit.now)) }
{
    let reported = report.exhibit();
    is_same_header(report.header(), header)
        && reported.general() == exhibit.general()
        && reported.log() == exhibit.log()
}

/// Appends the report at a place, if it is the one of the exhibit under the header, and returns whether it is.
fn add_report(
    row: Row,
    header: &Header,
    exhibit: &Exhibit,
    reports: &mut Vec<LocalReport>,
) -> Result<bool, AllocError>
    ensures { (before : List LogBytes) → AreReportsOf header.now before reports.old.items
        → IfOk result (λ added. added ≡ true → AreReportsOf header.now (before ++ exhibit.now ∷ []) reports.new.items) }
{
    let Row {
        filed: _,
        claimed: _,
        report,
    } = row;
    let Some(report) = report else {
        return Ok(false);
    };
    if !is_report_of(&report, header, exhibit) {
        return Ok(false);
    }
    let _lawful = report.reading();
    reports.push(report)?;
    Ok(true)
}

/// Returns the reports in the rows, if each exhibit has one under the header at its place. Each report is compared with
/// its exhibit and the header.
pub(crate) fn reports_among(
    alloc: Global,
    header: &Header,
    exhibits: &[Exhibit],
    rows: Vec<Row>,
) -> Result<Option<Vec<LocalReport>>, AllocError>
    ensures { IfOk result (λ found. IfSome found (λ reports.
        AreReportsOf header.now exhibits.now reports.items)) }
{
    let mut reports = Vec::with_capacity(alloc, exhibits.len())?;
    let mut place = 0;
    for row in rows {
        if place >= exhibits.len() || !add_report(row, header, &exhibits[place], &mut reports)? {
            return Ok(None);
        }
        place += 1;
    }
    if place < exhibits.len() {
        return Ok(None);
    }
    Ok(Some(reports))
}
