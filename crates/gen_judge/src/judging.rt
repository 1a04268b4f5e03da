//! Judges the bundle of a run.
ghost use Rattle.std.specs.Prelude.{IfOk, map};
ghost use Rattle.gen_convict.specs.Convictions.{AreConvictions, AreEvidence, ConvictsWhereHeld};
ghost use Rattle.gen_convict.specs.Evidence.{told_of};
ghost use Rattle.gen_audit.specs.Headline.{Headline};
ghost use Rattle.gen_audit.specs.Verdict.{IsVerdict};

use crate::reports::reports_among;
use gen_audit::{AuditFault, Bundle, JobGate, Judgement, WorkerCount, audit, judge_reports};
use gen_desk::Row;
use std::alloc::Global;
use std::sync::Wait;
use std::thread::Threads;

/// Returns the judgement on a bundle by the reports in the rows, if each of its exhibits has one there. Otherwise this
/// many workers audit the bundle.
pub(crate) fn judge_by<R: Threads + Wait + Sync, J: JobGate + Sync>(
    rt: &R,
    alloc: Global,
    bundle: &Bundle,
    rows: Option<Vec<Row>>,
    workers: WorkerCount,
    job_gate: &J,
) -> Result<Judgement, AuditFault>
    ensures verdict { IfOk result (λ judgement. IsVerdict bundle.now judgement.verdict) }
    ensures headline { IfOk result (λ judgement. Headline bundle.now judgement.verdict) }
    ensures convictions { IfOk result (λ judgement. AreConvictions bundle.now.header bundle.now.exhibits
        (map told_of judgement.convictions.items)) }
    ensures held { IfOk result (λ judgement. ConvictsWhereHeld bundle.now.header bundle.now.exhibits
        (map told_of judgement.convictions.items)) }
    ensures lawful { IfOk result (λ judgement.
        AreEvidence bundle.now.header (map told_of judgement.convictions.items)) }
{
    let Some(rows) = rows else {
        return audit(rt, alloc, bundle, workers, job_gate);
    };
    let found = reports_among(alloc, bundle.header(), bundle.exhibits(), rows)?;
    match found {
        Some(reports) => Ok(judge_reports(alloc, bundle, reports.as_slice())?),
        None => audit(rt, alloc, bundle, workers, job_gate),
    }
}
