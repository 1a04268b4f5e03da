//! The runs of bundles, beside those that are asked for.
ghost use Rattle.std.specs.Prelude.{IfErr, IfOk};
ghost use Rattle.gen_asked.specs.AskedRuns.{AreAsked};
ghost use Rattle.gen_judging.specs.Asking.{OthersAsked};
ghost use Rattle.gen_campaign.specs.FileRuns.{run_ids};

use gen_asked::AskedRuns;
use gen_audit::Bundle;
use gen_campaign::run_ids;
use gen_ends::JobFault;
use std::alloc::Global;

/// Refuses bundles of other runs than those that are asked for.
pub(crate) fn check_runs(
    alloc: Global,
    asked: AskedRuns,
    bundles: &[Bundle],
) -> Result<(), JobFault>
    ensures asked { IfOk result (λ _. AreAsked asked (run_ids bundles.now)) }
    ensures fault { IfErr result (OthersAsked asked (run_ids bundles.now)) }
{
    let ids = run_ids(alloc, bundles)?;
    if asked.are(ids.as_slice()) {
        Ok(())
    } else {
        Err(JobFault::OtherRun)
    }
}
