//! How many answers a store keeps through which reports on the logs of a run are made. No clause says it.
use crate::scenarios::{SILENT, stage_of};
use gen_chain::VerifyStore;
use gen_local::{exhibits_of_logs, local_reports};
use gen_scenario::Scenario;
use gen_world::run_world;
use std::alloc::Global;
use std::test::Fail;

/// Returns how many answers a new store keeps, by which the logs of a run are reported on side by side;
/// None if not each log has a report.
fn runs_of(alloc: Global, scenario: &Scenario) -> Result<Option<u64>, Fail> {
    let exhibits = exhibits_of_logs(alloc, run_world(alloc, scenario)?.into_logs())?;
    let mut store = VerifyStore::new(alloc)?;
    let reports = local_reports(alloc, scenario.header(), exhibits.as_slice(), &mut store)?;
    if reports.len() == 6 {
        Ok(Some(store.runs()))
    } else {
        Ok(None)
    }
}

// Of 17 signatures of statements 5 are distinct.
#[test]
fn each_signature_once(rt: HostRuntime) -> Result<(), Fail> {
    let stage = stage_of(rt.alloc(), SILENT)?;
    assert!(rt; runs_of(rt.alloc(), &stage.scenario)? == Some(5));
    Ok(())
}
