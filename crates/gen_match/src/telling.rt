//! Finds the logs that reports tell.
ghost use Rattle.std.specs.Prelude.{◌≡◌, ◌∷◌, [], IfSome, IfNone};
ghost use Rattle.std.specs.Option.{option_map};
ghost use Rattle.gen_local.specs.Erased.{erased};
ghost use Rattle.gen_match.specs.Reports.{reports_of, told_logs};

use gen_local::{LocalReport, Reading};
use gen_log::Log;
use gen_types::GeneralNo;

/// Returns the first report of a general, and the reports after it.
fn next_of(reports: &[LocalReport], general: GeneralNo) -> Option<(&LocalReport, &[LocalReport])>
    ensures some { IfSome result (λ found.
        reports_of reports.now general ≡ found.0.now ∷ reports_of found.1.now general) }
    ensures none { IfNone result (reports_of reports.now general ≡ []) }
{
    let mut rest = reports;
    while let Some((report, others)) = rest.split_first() {
        if report.exhibit().general() == general {
            return Some((report, others));
        }
        rest = others;
    }
    None
}

/// Returns the log of a general's one report, if its exhibit is a log of this general and its run. None is returned
/// otherwise, and if the general has no report or several.
pub(crate) fn log_reported(reports: &[LocalReport], general: GeneralNo) -> Option<&Log>
    ensures { option_map (λ log. erased log.now.entries) result ≡ told_logs reports.now general }
{
    let (report, others) = next_of(reports, general)?;
    match (next_of(others, general), report.reading()) {
        (None, Reading::Own(own)) => Some(own.log()),
        _ => None,
    }
}
