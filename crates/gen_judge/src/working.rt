//! One worker: it claims what is filed, and reports on it.
ghost use Rattle.gen_chain.specs.Store.{Serves};

use crate::stopping::StopWord;
use gen_audit::JobGate;
use gen_chain::VerifyStore;
use gen_desk::{Desk, DeskFault, Ticket};
use gen_local::{LocalReport, local_reports};
use gen_net::Header;
use std::alloc::{AllocError, Global};
use std::sync::Wait;
use std::sync::atomic::Ordering;
use std::thread;

/// How often at most a worker looks at the desk before it works on fewer places than it may claim.
const LOOKS: usize = 200;

/// The workers beside a run.
#[derive(Clone, Copy)]
pub(crate) struct Crew {
    /// The number of workers.
    pub(crate) workers: usize,
    /// How many places a worker claims at a time, at most.
    pub(crate) most: usize,
}

/// Claims up to `most` places that are filed and not yet claimed. A worker that has some, but fewer than `most`, lets
/// other threads run a while and looks again. All logs of a run are filed within a short time, and reports on several
/// logs take little longer than one.
///
/// # Errors
///
/// `AllocError` if memory is refused. What was claimed before is then reported on by no worker.
fn claim_some<R: Wait>(
    rt: &R,
    alloc: Global,
    desk: &Desk,
    most: usize,
) -> Result<Vec<Ticket>, AllocError> {
    let mut tickets = Vec::with_capacity(alloc, most)?;
    for _ in 0..LOOKS {
        match desk.claim(rt)? {
            Some(ticket) => tickets.push(ticket)?,
            None if tickets.is_empty() => return Ok(tickets),
            None => thread::yield_now(),
        }
        if tickets.len() >= most {
            return Ok(tickets);
        }
    }
    Ok(tickets)
}

/// Calls the gate for the place of each ticket, and makes the reports on what was claimed. The bytes of the exhibits are
/// shared and not copied, and the links of several logs are hashed side by side.
fn reports_of<J: JobGate>(
    alloc: Global,
    gate: &J,
    header: &Header,
    tickets: &[Ticket],
    store: &mut VerifyStore,
) -> Result<Vec<LocalReport>, AllocError>
    requires { Serves header.now store.old }
    ensures { Serves header.now store.new }
{
    let mut exhibits = Vec::with_capacity(alloc, tickets.len())?;
    for ticket in tickets {
        gate.begin(ticket.place());
        exhibits.push(ticket.exhibit().share()?)?;
    }
    local_reports(alloc, header, exhibits.as_slice(), store)
}

/// Reports on what was claimed, and hands in the reports at the desk, each with the ticket of the same position.
fn serve<R: Wait, J: JobGate>(
    rt: &R,
    alloc: Global,
    gate: &J,
    header: &Header,
    desk: &Desk,
    tickets: Vec<Ticket>,
    store: &mut VerifyStore,
) -> Result<(), DeskFault>
    requires { Serves header.now store.old }
    ensures { Serves header.now store.new }
{
    let Ok(reports) = reports_of(alloc, gate, header, tickets.as_slice(), store) else {
        return Err(DeskFault::Memory);
    };
    for (ticket, report) in tickets.into_iter().zip(reports) {
        if let Err((_ticket, _report, fault)) = desk.report(rt, ticket, report) {
            return Err(fault);
        }
    }
    Ok(())
}

/// Claims and reports, through a store of the worker's own, until all places are reported or the stop word is set. The
/// worker takes up to `most` filed logs at a time. If there is nothing to claim, it sleeps until something is filed or
/// reported, or all are woken.
///
/// # Errors
///
/// Memory if memory is refused, or what the desk says of a report that it refuses.
pub(crate) fn work<R: Wait, J: JobGate>(
    rt: &R,
    alloc: Global,
    gate: &J,
    header: &Header,
    desk: &Desk,
    most: usize,
    stop: &StopWord,
) -> Result<(), DeskFault> {
    let Ok(mut store) = VerifyStore::new(alloc) else {
        return Err(DeskFault::Memory);
    };
    for _ in rt.forever() {
        let moved = desk.prepare_wait();
        if stop.set.load(Ordering::SeqCst) {
            return Ok(());
        }
        let Ok(tickets) = claim_some(rt, alloc, desk, most) else {
            return Err(DeskFault::Memory);
        };
        if !tickets.is_empty() {
            serve(rt, alloc, gate, header, desk, tickets, &mut store)?;
        } else if desk.all_reported(rt) {
            return Ok(());
        } else {
            moved.wait(rt);
        }
    }
    unreachable!()
}
