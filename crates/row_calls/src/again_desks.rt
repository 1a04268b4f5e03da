//! A desk at which the logs of a run are filed, claimed and reported on.
use crate::again_answers::{Answer, Failure};
use gen_desk::{Desk, DeskFault, Row, Slip, Ticket};
use gen_local::{LocalReport, local_report};
use gen_log::SealedLog;
use gen_net::Header;
use gen_scenario::Scenario;
use gen_world::run_world;
use std::alloc::{AllocError, Global};
use std::sync::Wait;

/// Files a log. Returns the slip if memory was refused. After another fault the slip is given up.
fn file_once<R: Wait>(rt: &R, desk: &Desk, slip: Slip, log: &SealedLog) -> Option<Slip> {
    match desk.file_shared(rt, slip, log) {
        Ok(_receipt) => None,
        Err((slip, DeskFault::Memory)) => Some(slip),
        Err((slip, _fault)) => {
            let _place = slip.give_up();
            None
        }
    }
}

/// Files the log at the place of a slip. If that is refused, it is filed again by the same slip. If it is
/// refused again, or there is no such log, the slip is given up.
fn file<R: Wait>(rt: &R, desk: &Desk, slip: Slip, logs: &[SealedLog]) {
    let Some(log) = logs.get(slip.place()) else {
        let _place = slip.give_up();
        return;
    };
    if let Some(slip) = file_once(rt, desk, slip, log) {
        if let Some(slip) = file_once(rt, desk, slip, log) {
            let _place = slip.give_up();
        }
    }
}

/// Files one log for each slip: the one at the place of the slip.
fn file_all<R: Wait>(rt: &R, desk: &Desk, slips: Vec<Slip>, logs: &[SealedLog]) {
    let mut slips = slips;
    while let Some(slip) = slips.pop() {
        file(rt, desk, slip, logs);
    }
    slips.destroy_empty();
}

/// Returns a desk of two places, at which the first two logs of a scenario's run are filed.
fn filled<R: Wait>(rt: &R, alloc: Global, scenario: &Scenario) -> Result<Desk, AllocError> {
    let run = run_world(alloc, scenario)?;
    let (desk, slips) = Desk::new(alloc, 2)?;
    file_all(rt, &desk, slips, run.logs());
    Ok(desk)
}

/// Claims what is filed. If that is refused, it is claimed again.
fn claimed<R: Wait>(rt: &R, desk: &Desk) -> Result<Option<Ticket>, AllocError> {
    match desk.claim(rt) {
        Ok(found) => Ok(found),
        Err(_) => desk.claim(rt),
    }
}

/// Reports on what is claimed. If memory is refused, the same report is handed in again by the same ticket.
fn report<R: Wait>(rt: &R, desk: &Desk, ticket: Ticket, made: LocalReport) {
    if let Err((ticket, made, DeskFault::Memory)) = desk.report(rt, ticket, made) {
        let _back = desk.report(rt, ticket, made);
    }
}

/// Claims what is filed, if there is anything, and reports on it.
fn work<R: Wait>(rt: &R, alloc: Global, header: &Header, desk: &Desk) -> Result<(), AllocError> {
    if let Some(ticket) = claimed(rt, desk)? {
        let exhibit = ticket.exhibit();
        let made = local_report(alloc, header, exhibit.general(), exhibit.log())?;
        report(rt, desk, ticket, made);
    }
    Ok(())
}

/// Appends what is filed at a place, and whether it is claimed and reported on.
fn put_row(given: &mut Vec<u8>, row: &Row) -> Result<(), AllocError> {
    if let Some(exhibit) = &row.filed {
        given.extend_from_slice(exhibit.log())?;
    }
    given.extend_from_slice(&[u8::from(row.claimed), u8::from(row.report.is_some())])
}

/// Ends a desk, and returns what stands at its places.
fn rows_of(alloc: Global, desk: Desk) -> Answer {
    let Ok(filed) = desk.close(Vec::new(alloc)) else {
        return Err(Failure::Fault);
    };
    let mut given = Vec::new(alloc);
    for row in filed.rows() {
        put_row(&mut given, row)?;
    }
    Ok(given)
}

/// Calls `Desk::new`, `Desk::file_shared`, `Desk::claim`, `local_report` and `Desk::report`. Returns what
/// stands at the desk's places. What the desk refuses is asked of the same desk again.
pub(crate) fn call<R: Wait>(rt: &R, alloc: Global, scenario: &Scenario) -> Answer {
    let desk = filled(rt, alloc, scenario)?;
    work(rt, alloc, scenario.header(), &desk)?;
    rows_of(alloc, desk)
}
