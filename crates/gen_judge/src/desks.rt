//! Runs a scenario at a desk.
ghost use Rattle.std.specs.Prelude.{◌≡◌, ◌<◌, IfOk};
ghost use Rattle.gen_scenario.specs.Rows.{logs_of_all};

use crate::beside::run_beside;
use crate::filing::FilingGate;
use crate::places::logs_below;
use crate::stopping::StopWord;
use crate::trays::Tray;
use crate::working::Crew;
use gen_audit::{AuditFault, JobGate, WorkerCount};
use gen_desk::{Desk, Row};
use gen_log::SealedLog;
use gen_scenario::Scenario;
use gen_threads::Gate;
use sha_lanes::LANES;
use std::alloc::Global;
use std::sync::Wait;
use std::sync::atomic::AtomicBool;
use std::thread::Threads;

/// A run at a desk: its logs, and what stands at the places of the desk, if the desk knows all receipts.
#[derive(Drop)]
pub(crate) struct FiledRun {
    pub(crate) logs: Vec<SealedLog>,
    pub(crate) rows: Option<Vec<Row>>,
}

/// Runs a scenario beside this many workers, which report on each log once its general has filed it.
///
/// # Errors
///
/// `Memory` if memory was refused to any thread; else `Thread` if a thread could not be started. All threads have ended
/// then.
pub(crate) fn run_at_desk<R: Threads + Wait + Sync, G: Gate + Sync, J: JobGate + Sync>(
    rt: &R,
    alloc: Global,
    scenario: &Scenario,
    capacity: usize,
    workers: WorkerCount,
    gate: &G,
    job_gate: &J,
) -> Result<FiledRun, AuditFault>
    requires { 0 < capacity }
    ensures { IfOk result (λ run. run.logs.items ≡ logs_of_all scenario.now) }
{
    let places = logs_below(scenario, scenario.header().net().generals());
    let mut tray = Tray::new(alloc, places)?;
    let (desk, slips) = Desk::new(alloc, places)?;
    tray.put_slips(slips);
    let stop = StopWord {
        set: AtomicBool::new(false),
        refused: AtomicBool::new(false),
    };
    let filing = FilingGate {
        rt,
        gate,
        scenario,
        desk: &desk,
        tray: &tray,
        stop: &stop,
    };
    // A worker claims its share of the places at a time, but no more than the logs that are hashed side by side. So
    // no worker takes what another could report on meanwhile.
    let share = places.div_ceil(workers.get());
    let crew = Crew {
        workers: workers.get(),
        most: share.min(LANES).max(1),
    };
    let logs = run_beside(
        rt, alloc, scenario, capacity, crew, &desk, &tray, &stop, &filing, job_gate,
    )?;
    let rows = match desk.close(tray.into_receipts()) {
        Ok(filed) => Some(filed.into_rows()),
        Err(_strange) => None,
    };
    Ok(FiledRun { logs, rows })
}
