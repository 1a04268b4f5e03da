//! Makes reports by workers.
ghost use Rattle.std.specs.Prelude.{◌≡◌, ◌<◌, [], IfErr, IfOk, suc, vec_capacity};
ghost use Rattle.gen_local.specs.Report.{AreReportsOf};
ghost use Rattle.gen_audit.specs.Faults.{IsFaultBy};
ghost use Rattle.gen_audit.specs.Loops.Hands.{AreHands};

use crate::boards::{Board, Workshop};
use crate::counts::WorkerCount;
use crate::faults::AuditFault;
use crate::gates::JobGate;
use crate::hands::Hand;
use crate::merging::merged;
use crate::starting::run_within;
use gen_local::{Exchange, Exhibit, LocalReport};
use gen_net::Header;
use std::alloc::Global;
use std::sync::Wait;
use std::thread;
use std::thread::Threads;

/// Runs `last` + 1 workers in a scope of threads, and returns their hands.
fn run_workers<R: Threads + Wait + Sync, S: JobGate + Exchange + Sync>(
    rt: &R,
    alloc: Global,
    shop: &S,
    header: &Header,
    exhibits: &[Exhibit],
    last: usize,
) -> Result<Vec<Hand>, AuditFault>
    requires { last < 16 }
    ensures hands { IfOk result (λ hands. AreHands header.now exhibits.now last hands.items) }
    ensures fault { IfErr result (IsFaultBy (suc last)) }
{
    let hands = Vec::with_capacity(alloc, last + 1)?;
    thread::scope(
        thread::scope_env(),
        rt,
        move |scope| -> Result<Vec<Hand>, AuditFault>
            requires { (hands.items ≡ []) × (last < vec_capacity hands) }
            ensures { IfOk result (λ all. AreHands header.entry.now exhibits.entry.now last all.items)
                × IfErr result (IsFaultBy (suc last)) }
        { run_within(rt, alloc, shop, scope, header, exhibits, last, hands) },
    )
}

/// Returns the reports of exhibits under a header, in their order, made by this number of workers. The first worker
/// runs in the calling thread, each other worker in a thread of its own; one worker alone starts no thread. The gate is
/// called for each piece by the worker that takes it. A worker calls the gate for up to `LANES` of its pieces in a row
/// before it works on them.
///
/// # Errors
///
/// `Memory` if memory was refused to the caller or to any worker; otherwise `Thread` if a thread could not be started,
/// for whatever reason. So one worker never answers `Thread`. All threads have ended then.
pub fn reports_by_workers<R: Threads + Wait + Sync, G: JobGate + Sync>(
    rt: &R,
    alloc: Global,
    header: &Header,
    exhibits: &[Exhibit],
    workers: WorkerCount,
    gate: &G,
) -> Result<Vec<LocalReport>, AuditFault>
    ensures reports { IfOk result (λ reports. AreReportsOf header.now exhibits.now reports.items) }
    ensures fault { IfErr result (IsFaultBy workers) }
{
    let last = workers.get() - 1;
    let board = Board::new(alloc, header)?;
    let shop = Workshop {
        rt,
        gate,
        board: &board,
        alone: last == 0,
    };
    let hands = run_workers(rt, alloc, &shop, header, exhibits, last)?;
    Ok(merged(alloc, header, exhibits, last, hands)?)
}
