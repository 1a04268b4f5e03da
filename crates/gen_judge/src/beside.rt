//! Runs a scenario beside workers that report on its logs.
ghost use Rattle.std.specs.Prelude.{◌≡◌, ◌<◌, IfOk};
ghost use Rattle.gen_scenario.specs.Rows.{logs_of_all};
ghost use Rattle.gen_judge.specs.Faults.{ended_as};

use crate::stopping::StopWord;
use crate::trays::Tray;
use crate::working::{Crew, work};
use gen_audit::{AuditFault, JobGate};
use gen_desk::Desk;
use gen_log::SealedLog;
use gen_net::Header;
use gen_scenario::Scenario;
use gen_threads::{Gate, RunFault, run_threads};
use std::alloc::Global;
use std::sync::Wait;
use std::sync::atomic::Ordering;
use std::thread;
use std::thread::{JoinHandle, Scope, Threads};

/// Starts the workers of a crew, as long as there is room for their handles. After one that can't be started no other
/// is. A worker that can't go on sets the stop word. Returns the handles, and whether all could be started.
fn start_workers<'s, E, R: Threads + Wait + Sync, J: JobGate + Sync>(
    rt: &'s R,
    alloc: Global,
    gate: &'s J,
    scope: &Scope<'s, E>,
    header: &'s Header,
    desk: &'s Desk,
    stop: &'s StopWord,
    crew: Crew,
    empty: Vec<JoinHandle<()>>,
) -> (Vec<JoinHandle<()>>, bool) {
    let Crew { workers, most } = crew;
    let mut handles = empty;
    for _ in 0..workers {
        if handles.len() == handles.capacity() {
            return (handles, false);
        }
        let spawned = scope.spawn(move || {
            if let Err(fault) = work(rt, alloc, gate, header, desk, most, stop) {
                stop.set_for(desk, fault);
            }
        });
        match spawned {
            Ok(handle) => handles.push_reserved(handle),
            Err(_refused) => return (handles, false),
        }
    }
    (handles, true)
}

/// Returns the answer for a run that ended with these logs or this fault. `started` says whether all workers were
/// started, `refused` whether memory was refused to one that files or reports.
fn ended(
    logs: Result<Vec<SealedLog>, RunFault>,
    started: bool,
    refused: bool,
) -> Result<Vec<SealedLog>, AuditFault>
    ensures { result ≡ ended_as logs started refused }
{
    if refused {
        return Err(AuditFault::Memory);
    }
    match logs {
        Err(RunFault::Memory) => Err(AuditFault::Memory),
        Err(RunFault::Thread | RunFault::Gone) => Err(AuditFault::Thread),
        Ok(logs) => {
            if started {
                Ok(logs)
            } else {
                Err(AuditFault::Thread)
            }
        }
    }
}

/// Runs a scenario, whose generals file at the gate, beside the workers of a crew, each in a thread of its own. It
/// starts the workers and runs the generals, while the workers wait for what the generals file. Then it ends the
/// receipts that the desk knows, and joins the workers: all threads have ended when it returns.
///
/// # Errors
///
/// `Memory` if memory was refused to any thread; else `Thread` if a thread could not be started.
pub(crate) fn run_beside<R: Threads + Wait + Sync, G: Gate + Sync, J: JobGate + Sync>(
    rt: &R,
    alloc: Global,
    scenario: &Scenario,
    capacity: usize,
    crew: Crew,
    desk: &Desk,
    tray: &Tray,
    stop: &StopWord,
    gate: &G,
    job_gate: &J,
) -> Result<Vec<SealedLog>, AuditFault>
    requires { 0 < capacity }
    ensures { IfOk result (λ logs. logs.items ≡ logs_of_all scenario.now) }
{
    let handles = Vec::with_capacity(alloc, crew.workers)?;
    thread::scope(
        thread::scope_env(),
        rt,
        move |scope| -> Result<Vec<SealedLog>, AuditFault>
            requires { 0 < capacity }
            ensures { IfOk result (λ logs. logs.items ≡ logs_of_all scenario.entry.now) }
        {
            let header = scenario.header();
            let (handles, started) = start_workers(
                rt, alloc, job_gate, scope, header, desk, stop, crew, handles,
            );
            if !started {
                stop.set(desk);
            }
            let logs = run_threads(rt, alloc, scenario, capacity, gate);
            match &logs {
                // While the workers go on.
                Ok(_all) => tray.spend_known(rt, desk),
                Err(_fault) => stop.set(desk),
            }
            for handle in handles {
                handle.join(rt);
            }
            ended(logs, started, stop.refused.load(Ordering::SeqCst))
        },
    )
}
