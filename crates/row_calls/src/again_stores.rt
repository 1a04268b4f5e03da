//! A store that keeps what was verified, and is used again after a call that was refused.
ghost use Rattle.std.specs.Prelude.{IfOk};
ghost use Rattle.gen_chain.specs.Store.{Serves};
ghost use Rattle.gen_audit.specs.Telling.{AreReports};

use crate::again_answers::{Answer, verdict_text};
use gen_audit::{Bundle, judge_reports};
use gen_chain::VerifyStore;
use gen_local::{LocalReport, local_reports};
use std::alloc::{AllocError, Global};

/// Returns the reports on the exhibits, which are made with this store.
fn reports_by(
    alloc: Global,
    bundle: &Bundle,
    store: &mut VerifyStore,
) -> Result<Vec<LocalReport>, AllocError>
    requires { Serves bundle.now.header store.old }
    ensures reports { IfOk result (λ reports. AreReports bundle.now reports.items) }
    ensures serves { Serves bundle.now.header store.new }
{
    local_reports(alloc, bundle.header(), bundle.exhibits(), store)
}

/// Returns the reports on the exhibits. If memory is refused, they are made again with the same store.
fn reports_again(alloc: Global, bundle: &Bundle) -> Result<Vec<LocalReport>, AllocError>
    ensures { IfOk result (λ reports. AreReports bundle.now reports.items) }
{
    let mut store = VerifyStore::new(alloc)?;
    match reports_by(alloc, bundle, &mut store) {
        Ok(reports) => Ok(reports),
        Err(_) => reports_by(alloc, bundle, &mut store),
    }
}

/// Returns the text of the verdict by these reports.
fn judged(alloc: Global, bundle: &Bundle, reports: &[LocalReport]) -> Answer
    requires { AreReports bundle.now reports.now }
{
    let judgement = judge_reports(alloc, bundle, reports)?;
    verdict_text(alloc, bundle.header(), &judgement)
}

/// Calls `local_reports`, `judge_reports` and `print_verdict`. Returns the text of the verdict. If the
/// reports are refused, they are made again with the same store.
pub(crate) fn call(alloc: Global, bundle: &Bundle) -> Answer {
    let reports = reports_again(alloc, bundle)?;
    judged(alloc, bundle, reports.as_slice())
}
